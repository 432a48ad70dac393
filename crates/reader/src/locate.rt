// Where prototypes lie in an image in order.
ghost use Rattle.std.specs.Prelude.{◌≡◌, true, false, cond, ◌+◌, ◌*◌, ◌<◌, ◌≤◌, length, get_or, drop, eqb};
ghost use Rattle.meaning.specs.Fields.{fields, whole, word_at};
ghost use Rattle.meaning.specs.Grammar.{short_mark};
ghost use Rattle.meaning.specs.Images.{inst_of, image_of};
ghost use Rattle.reader.specs.Laid.{part_from, proto_span, Ordered, Located};

use crate::order::inst_size;
use fields::{is_whole, word};
use meaning::Instruction;

// A header stands at the front.
pub fn heads(t: &[u8]) -> bool
    ensures { ((result ≡ true) → ((whole t.now ≡ true) × (get_or t.now 0 0 ≡ 0x41))) × ((result ≡ false) → whole t.now ≡ true → get_or t.now 0 0 ≡ 0x41 → ⊥) }
{
    if is_whole(t) {
        return t[0] == 0x41;
    }
    false
}

// The bytes of the prototype whose header stands at the front.
pub(crate) fn proto_span(t: &[u8], tag: u8) -> usize
    requires { 13 ≤ length t.now }
    ensures { result ≡ proto_span t.now tag }
{
    13 + word(t, 9) * 5 + word(t, 11) * (3 + inst_size(tag))
}

// The part of an image in order from prototype q on; where there are not so many, that behind the last, which is the constants.
pub fn prototype<'a>(image: &'a [u8], tag: u8, q: usize) -> &'a [u8]
    requires { Ordered image.now tag }
    ensures { Located (image_of tag (fields image.now)) tag q result.now × (result.now ≡ part_from tag image.now q) }
{
    let mut t = image;
    for _ in 0..q {
        if !heads(t) {
            return t;
        }
        t = &t[proto_span(t, tag)..];
    }
    t
}

// A mark of two bytes: 65,535 is none, which is 4,294,967,295 at either width.
fn short_mark(v: usize) -> u32
    requires { v < 65536 }
    ensures { result ≡ short_mark v }
{
    if v == 65535 {
        return 4294967295;
    }
    // stays: no From leads from usize to u32, and a TryFrom would test again what the clause says.
    v as u32
}

// stays: the tag is a byte, since `instruction` takes any (`inst_of tag`).
// The mark at a place: two bytes, with 47 four.
fn mark_at(s: &[u8], tag: u8, at: usize) -> u32
    requires { (at + 2 ≤ length s.now) × (tag ≡ 0x47 → at + 4 ≤ length s.now) }
    ensures { result ≡ cond (eqb tag 0x47) (word_at s.now at * 65536 + word_at s.now (at + 2)) (short_mark (word_at s.now at)) }
{
    if tag == 0x47 {
        // stays: as in `short_mark`.
        return (word(s, at) * 65536 + word(s, at + 2)) as u32;
    }
    short_mark(word(s, at))
}

// The instruction whose payload stands at a place.
pub(crate) fn inst_at(s: &[u8], tag: u8, at: usize) -> Instruction
    requires { (at + 6 ≤ length s.now) × (tag ≡ 0x47 → at + 8 ≤ length s.now) }
    ensures { result ≡ inst_of tag (drop at s.now) }
{
    Instruction {
        opcode: s[at],
        a: s[at + 1],
        b: s[at + 2],
        c: s[at + 3],
        mark: mark_at(s, tag, at + 4),
    }
}
