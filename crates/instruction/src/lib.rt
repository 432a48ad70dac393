// The port of src/instruction.rs: opcodes, what an instruction's b and c hold, and the 16-bit offset of a jump. `imm` is left out.
#![tactic(auto)]

ghost use Rattle.std.specs.Prelude.{◌≡◌, ◌&&◌, map, eqb};
ghost use Rattle.meaning.specs.Opcode.{opcode_table, opcode_of, Jmp, bx, back, is_continue, is_break};
ghost use Rattle.instruction.specs.Offset.{signed, sbx, halves_of};

use meaning::Instruction;

// In the order of the source: `OpCode::Jmp as u8` is its number, 3.
#[derive(Clone, Copy)]
pub enum OpCode {
    Move,
    LoadK,
    LoadNil,
    Jmp,
    Test,
    Add,
    Sub,
    Div,
    Mod,
    Mul,
    Pow,
    Lt,
    Gt,
    Lte,
    Gte,
    Eq,
    Neq,
    Not,
    Neg,
    Call,
    Return,
    SetUpval,
    GetUpval,
    Closure,
    List,
    PushList,
    Dict,
    PushDict,
    Slice,
    Access,
    Set,
    Class,
    ClassMeth,
    ClassStMeth,
    GetObj,
    SetObj,
    Addi,
    Subi,
    GetIter,
    GetIterk,
    GetIteri,
    Length,
    Super,
    This,
    GetGlobal,
    SetGlobal,
    GetCurrentFunc,
    GetBuiltin,
    RegisterTryCatch,
    DeregisterTryCatch,
    GetExcept,
}

// stays: each name stands here once more: `numbers` promises `opcode_table` row for row, and no method lists an enum's cases.
// The number of every opcode, in their order: that `as u8` gives the numbers of the one table, row for row.
pub fn numbers() -> [u8; 51]
    ensures { result ≡ map opcode_of opcode_table }
{
    [
        OpCode::Move as u8,
        OpCode::LoadK as u8,
        OpCode::LoadNil as u8,
        OpCode::Jmp as u8,
        OpCode::Test as u8,
        OpCode::Add as u8,
        OpCode::Sub as u8,
        OpCode::Div as u8,
        OpCode::Mod as u8,
        OpCode::Mul as u8,
        OpCode::Pow as u8,
        OpCode::Lt as u8,
        OpCode::Gt as u8,
        OpCode::Lte as u8,
        OpCode::Gte as u8,
        OpCode::Eq as u8,
        OpCode::Neq as u8,
        OpCode::Not as u8,
        OpCode::Neg as u8,
        OpCode::Call as u8,
        OpCode::Return as u8,
        OpCode::SetUpval as u8,
        OpCode::GetUpval as u8,
        OpCode::Closure as u8,
        OpCode::List as u8,
        OpCode::PushList as u8,
        OpCode::Dict as u8,
        OpCode::PushDict as u8,
        OpCode::Slice as u8,
        OpCode::Access as u8,
        OpCode::Set as u8,
        OpCode::Class as u8,
        OpCode::ClassMeth as u8,
        OpCode::ClassStMeth as u8,
        OpCode::GetObj as u8,
        OpCode::SetObj as u8,
        OpCode::Addi as u8,
        OpCode::Subi as u8,
        OpCode::GetIter as u8,
        OpCode::GetIterk as u8,
        OpCode::GetIteri as u8,
        OpCode::Length as u8,
        OpCode::Super as u8,
        OpCode::This as u8,
        OpCode::GetGlobal as u8,
        OpCode::SetGlobal as u8,
        OpCode::GetCurrentFunc as u8,
        OpCode::GetBuiltin as u8,
        OpCode::RegisterTryCatch as u8,
        OpCode::DeregisterTryCatch as u8,
        OpCode::GetExcept as u8,
    ]
}

// The marks of an unfinished jump: its a, which no finished jump uses.
// stays: bytes and no enum: `a` of an instruction is a number in the definition (`jmp_continue`, `jmp_break`).
pub const JMP_CONTINUE: u8 = 1;

pub const JMP_BREAK: u8 = 2;

// fn bx: the number that b and c hold.
pub fn bx(x: Instruction) -> u16
    ensures { result ≡ bx x }
{
    u16::from_be_bytes([x.b, x.c])
}

// fn sbx: the same number read as a signed one.
pub fn sbx(x: Instruction) -> i16
    ensures { result ≡ sbx x }
{
    bx(x).cast_signed()
}

// An unfinished jump with this mark.
fn is_jump(x: Instruction, mark: u8) -> bool
    ensures { result ≡ (eqb x.opcode Jmp && eqb x.a mark) }
{
    x.opcode == OpCode::Jmp as u8 && x.a == mark
}

// fn is_continue.
pub fn is_continue(x: Instruction) -> bool
    ensures { result ≡ is_continue x }
{
    is_jump(x, JMP_CONTINUE)
}

// fn is_break.
pub fn is_break(x: Instruction) -> bool
    ensures { result ≡ is_break x }
{
    is_jump(x, JMP_BREAK)
}

// A 16-bit number as an instruction holds it, high byte first.
#[derive(Clone, Copy)]
pub struct Halves {
    pub b: u8,
    pub c: u8,
}

impl From<u16> for Halves {
    fn from(n: u16) -> Halves
        ensures { result ≡ halves_of n }
    {
        let [b, c] = n.to_be_bytes();
        Halves { b, c }
    }
}

// A jump forward over n instructions. A function that 17 will refuse may be longer than 16 bits hold: the offset wraps.
pub fn forward(n: usize) -> Halves
    ensures { result ≡ halves_of n }
{
    Halves::from((n % 65536) as u16)
}

// A jump backward over n instructions: 65,536 minus n.
pub fn backward(n: usize) -> Halves
    ensures { result ≡ halves_of (back n) }
{
    Halves::from(0u16.wrapping_sub((n % 65536) as u16))
}
