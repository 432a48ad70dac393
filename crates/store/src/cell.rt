// The pending instruction's cell: two words, the packed one and above it the mark, downward from `top`. How it is packed and where it stands is known here alone.
ghost use Rattle.std.specs.Prelude.{◌≡◌, ◌+◌, ◌*◌, ◌<◌, ◌≤◌, length, set, slice_index, slice_set};
ghost use Rattle.meaning.specs.Opcode.{inst, inst_bx, back, Jmp};
ghost use Rattle.store.specs.Layout.{cell, mark_cell, unpacked, inst_at};
ghost use Rattle.store.specs.Store.{nodes_of, top_of, HasCell};
ghost use Rattle.store.specs.Cell.{Bytes, Packs, Wrote};

use crate::Scope;
use crate::layout::top;
use instruction::OpCode;
use meaning::Instruction;

const JMP: u32 = OpCode::Jmp as u32;

// Four bytes in a word.
pub fn pack(op: u32, a: u32, b: u32, c: u32) -> u32
    requires { Bytes op a b c }
    ensures { Packs result (inst op a b c) }
{
    op + 256 * a + 65536 * b + 16777216 * c
}

// The same with a 16-bit number, high byte first.
pub fn pack_bx(op: u32, a: u32, n: usize) -> u32
    requires { (op < 256) × (a < 256) }
    ensures { Packs result (inst_bx op a n) }
{
    let h = instruction::forward(n);
    pack(op, a, h.b as u32, h.c as u32)
}

// A jump back over n instructions.
pub fn jump_back(n: usize) -> u32
    ensures { Packs result (inst_bx Jmp 0 (back n)) }
{
    let h = instruction::backward(n);
    pack(JMP, 0, h.b as u32, h.c as u32)
}

// The instruction of a packed word and a mark.
pub fn unpacked(x: u32, mark: u32) -> Instruction
    ensures { result ≡ unpacked x mark }
{
    Instruction {
        opcode: (x % 256) as u8,
        a: (x / 256 % 256) as u8,
        b: (x / 65536 % 256) as u8,
        c: (x / 16777216 % 256) as u8,
        mark,
    }
}

// stays: the five below read or write a word, a mark or both at the one place that `cell` tells: a parameter for which would be no plainer.
// Where the packed word of instruction i stands.
fn cell(scope: Scope, i: usize) -> usize
    requires { (2 * i + 2 ≤ top_of scope) × (nodes_of scope ≤ 32768) }
    ensures { result ≡ cell (top_of scope) i }
{
    top(scope.nodes) - (2 * i + 2)
}

// Instruction i is written, by its packed word and its mark.
pub fn write_cell(work: &mut [u32], scope: Scope, i: usize, word: u32, mark: u32)
    requires { HasCell work.old scope i }
    ensures { Wrote work.old (top_of scope) i word mark work.new }
{
    let at = cell(scope, i);
    work[at] = word;
    work[at + 1] = mark;
}

// Its packed word alone is set anew.
pub fn set_word(work: &mut [u32], scope: Scope, i: usize, word: u32)
    requires { HasCell work.old scope i }
    ensures { work.new ≡ slice_set work.old (cell (top_of scope) i) word }
{
    let at = cell(scope, i);
    work[at] = word;
}

// Its packed word.
pub fn word_at(work: &[u32], scope: Scope, i: usize) -> u32
    requires { HasCell work.now scope i }
    ensures { result ≡ slice_index work.now (cell (top_of scope) i) }
{
    let at = cell(scope, i);
    work[at]
}

// Its mark.
pub fn mark_at(work: &[u32], scope: Scope, i: usize) -> u32
    requires { HasCell work.now scope i }
    ensures { result ≡ slice_index work.now (mark_cell (top_of scope) i) }
{
    let at = cell(scope, i);
    work[at + 1]
}

// Instruction i.
pub fn inst_at(work: &[u32], scope: Scope, i: usize) -> Instruction
    requires { HasCell work.now scope i }
    ensures { result ≡ inst_at work.now (top_of scope) i }
{
    unpacked(word_at(work, scope, i), mark_at(work, scope, i))
}
