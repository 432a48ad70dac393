// Literals (01, "A constant is a binary64 number, a text or another literal"): read from a payload, which keeps all their bits, and tested for Addi.
ghost use Rattle.std.specs.Prelude.{◌≡◌, ◌<◌};
ghost use Rattle.meaning.specs.Fields.{words};
ghost use Rattle.meaning.specs.Read.{at, bits};
ghost use Rattle.meaning.specs.Constant.{number, constant_of, Proper, small};
ghost use Rattle.values.specs.Literals.{number_of, literal_of, constant_at, small_as, small_of};

use meaning::Literal;

// Word k of a payload, 0 where it has no such word.
// stays: 0 and no Option: that is what `at` of the definition has there, and every caller asks for it.
#[tactic(auto, using(crate::proofs::Numbers::word_there, crate::proofs::Numbers::word_none))]
fn word_or_none(p: &[u8], k: usize) -> u16
    requires { k < 32768 }
    ensures { result ≡ at (words p.now) k }
{
    let start = 2 * k;
    if start + 2 <= p.len() {
        return fields::word(p, start) as u16;
    }
    0
}

// The 64 bits of a number, the high byte first.
// stays: four words and no `from_be_bytes`: a payload may end before any of them (`bits` of the definition).
pub fn bits_at(p: &[u8]) -> u64
    ensures { result ≡ bits (words p.now) }
{
    let a = u64::from(word_or_none(p, 0));
    let b = u64::from(word_or_none(p, 1));
    let c = u64::from(word_or_none(p, 2));
    let d = u64::from(word_or_none(p, 3));
    ((a * 65536 + b) * 65536 + c) * 65536 + d
}

// A NaN keeps its bits in a case of its own: `f64::from_bits` and `to_bits` are undefined there.
pub fn number_of(bits: u64) -> Literal
    ensures case { result ≡ number_of bits }
    ensures constant { (constant_of result ≡ number bits) × Proper result }
{
    if 0x7FF0_0000_0000_0000 < bits % 0x8000_0000_0000_0000 {
        return Literal::NotANumber(bits);
    }
    Literal::Number(f64::from_bits(bits))
}

// The literal of a node of tag 01, 02 or 03, by its payload.
// stays: the tag is a number: `literal_of` and `constant_at` of specs/Literals answer for every tag.
#[tactic(auto, unfolding(crate::specs::Literals::literal_of, crate::specs::Literals::constant_at))]
pub fn literal_of(tag: u8, p: &[u8]) -> Literal
    ensures case { result ≡ literal_of tag (words p.now) }
    ensures constant { (constant_of result ≡ constant_at tag (words p.now)) × Proper result }
{
    match tag {
        0x01 => number_of(bits_at(p)),
        0x02 => Literal::Text(word_or_none(p, 0)),
        _ => Literal::Other(word_or_none(p, 0)),
    }
}

// The test for Addi, from the bits: a zero of either sign; else no sign, an exponent of 0 to 7, and no digit below the point.
pub fn small_bits(bits: u64) -> Option<u8>
    ensures { result ≡ small_as (small bits) }
{
    if bits % 0x8000_0000_0000_0000 == 0 {
        return Some(0);
    }
    let field = bits / 0x0010_0000_0000_0000;
    if field < 1023 {
        return None;
    }
    if 1030 < field {
        return None;
    }
    let digits = 0x0010_0000_0000_0000 + bits % 0x0010_0000_0000_0000;
    let unit = 1u64 << (1075 - field);
    if digits % unit == 0 {
        return Some((digits / unit) as u8);
    }
    None
}

// The test for Addi: the literal equals one of 0 to 255 by IEEE 754's comparison, and negative zero counts as 0.
pub fn small(l: Literal) -> Option<u8>
    requires { Proper l }
    ensures { result ≡ small_of l }
{
    match l {
        Literal::Number(x) => small_bits(f64::to_bits(x)),
        Literal::NotANumber(bits) => small_bits(bits),
        Literal::Text(_) => None,
        Literal::Other(_) => None,
    }
}
