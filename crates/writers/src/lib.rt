// The parts of an image (document 01, "Image file"), each written at its place in bytes that are lent: a word, a header, a capture, an instruction,
// a constant. They take values, so whoever has one can write it; who calls has seen that it fits.
#![tactic(auto)]

ghost use Rattle.std.specs.Prelude.{◌+◌, ◌≤◌, ◌≡◌, [], ◌∷◌, length};
ghost use Rattle.meaning.specs.Images.{inst_size};
ghost use Rattle.meaning.specs.Image.{word, field, capture_bytes, inst_bytes, number_bytes, constant_bytes};
ghost use Rattle.writers.specs.Values.{header_bytes, capture_of, constant_of};
ghost use Rattle.writers.specs.Spliced.{Spliced};

use meaning::Instruction;

// stays: `out` and `at` side by side: a struct that lends `out` would say in each contract that its loan is the same (code/src/lib.rt).
// What a prototype's header says: its name, and how many there are of each.
#[derive(Clone, Copy)]
pub struct Header {
    pub name: u32,
    pub params: u32,
    pub registers: u32,
    pub captures: u32,
    pub code: u32,
}

// Where it is local `index` is a register of the function around, else one of its captures.
#[derive(Clone, Copy)]
pub struct Capture {
    pub local: bool,
    pub index: u8,
}

// A constant as it stands in an image: a number by its 64 bits, NaN or not.
#[derive(Clone, Copy)]
pub enum Constant {
    Number(u64),
    Text(u32),
    Other(u32),
}

impl Constant {
    // How many bytes it has.
    pub fn size(self) -> usize
        ensures { (result ≡ length (constant_bytes (constant_of self ∷ []))) × (result ≤ 11) }
    {
        match self {
            Constant::Number(_) => 11,
            Constant::Text(_) => 5,
            Constant::Other(_) => 5,
        }
    }
}

// A word, high byte first.
// stays: two bytes of a u32, which to_be_bytes of (n % 65536) as u16 would write no plainer.
pub fn put_word(out: &mut [u8], at: usize, n: u32)
    requires { at + 2 ≤ length out.old }
    ensures { Spliced out.old at (word n) out.new }
{
    out[at] = (n / 256 % 256) as u8;
    out[at + 1] = (n % 256) as u8;
}

// A field's tag and length; its payload is the caller's.
pub fn put_field(out: &mut [u8], at: usize, tag: u8, size: u32)
    requires { at + 3 ≤ length out.old }
    ensures { Spliced out.old at (tag ∷ word size) out.new }
{
    out[at] = tag;
    put_word(out, at + 1, size);
}

// Tag 41.
pub fn put_header(out: &mut [u8], at: usize, h: Header)
    requires { at + 13 ≤ length out.old }
    ensures { Spliced out.old at (header_bytes h) out.new }
{
    put_field(out, at, 0x41, 10);
    put_word(out, at + 3, h.name);
    put_word(out, at + 5, h.params);
    put_word(out, at + 7, h.registers);
    put_word(out, at + 9, h.captures);
    put_word(out, at + 11, h.code);
}

// Tag 42.
pub fn put_capture(out: &mut [u8], at: usize, c: Capture)
    requires { at + 5 ≤ length out.old }
    ensures { Spliced out.old at (capture_bytes (capture_of c ∷ [])) out.new }
{
    put_field(out, at, 0x42, 2);
    out[at + 3] = c.local as u8;
    out[at + 4] = c.index;
}

// The four bytes of an instruction before its mark.
fn put_operands(out: &mut [u8], at: usize, x: Instruction)
    requires { at + 4 ≤ length out.old }
    ensures { Spliced out.old at (x.opcode ∷ x.a ∷ x.b ∷ x.c ∷ []) out.new }
{
    out[at..at + 4].copy_from_slice(&[x.opcode, x.a, x.b, x.c]);
}

// stays: the tag is a byte, since `inst_bytes tag` is promised of any.
// Tag 43, or 47 with a mark of four bytes.
pub fn put_inst(out: &mut [u8], at: usize, tag: u8, x: Instruction)
    requires { at + (3 + inst_size tag) ≤ length out.old }
    ensures { Spliced out.old at (inst_bytes tag (x ∷ [])) out.new }
{
    if tag == 0x47 {
        put_field(out, at, 0x47, 8);
        put_operands(out, at + 3, x);
        out[at + 7..at + 11].copy_from_slice(&x.mark.to_be_bytes());
        return;
    }
    put_field(out, at, tag, 6);
    put_operands(out, at + 3, x);
    put_word(out, at + 7, x.mark);
}

// Tag 44: a number by its 64 bits.
fn put_number(out: &mut [u8], at: usize, bits: u64)
    requires { at + 11 ≤ length out.old }
    ensures { Spliced out.old at (field 0x44 (number_bytes bits)) out.new }
{
    put_field(out, at, 0x44, 8);
    out[at + 3..at + 11].copy_from_slice(&bits.to_be_bytes());
}

// Tags 45 and 46: a text, another literal.
fn put_short(out: &mut [u8], at: usize, tag: u8, n: u32)
    requires { at + 5 ≤ length out.old }
    ensures { Spliced out.old at (field tag (word n)) out.new }
{
    put_field(out, at, tag, 2);
    put_word(out, at + 3, n);
}

// Tags 44 to 46.
pub fn put_constant(out: &mut [u8], at: usize, k: Constant)
    requires { at + length (constant_bytes (constant_of k ∷ [])) ≤ length out.old }
    ensures { Spliced out.old at (constant_bytes (constant_of k ∷ [])) out.new }
{
    match k {
        Constant::Number(bits) => put_number(out, at, bits),
        Constant::Text(name) => put_short(out, at, 0x45, name),
        Constant::Other(n) => put_short(out, at, 0x46, n),
    }
}
