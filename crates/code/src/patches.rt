// Scans over pending code that set its jumps, as the source has them.
ghost use Rattle.std.specs.Prelude.{ℕ, ◌*◌, ◌-◌, ◌^◌, ◌<◌, ◌≤◌, length};
ghost use Rattle.meaning.specs.Chunk.{continue_offset, patch_jump, patch_loop, patch_end, patch_ends, patch_first};
ghost use Rattle.meaning.specs.Opcode.{inst_bx, Jmp};
ghost use Rattle.store.specs.Store.{nodes_of, top_of};
ghost use Rattle.store.specs.Cell.{Packs};
ghost use Rattle.code.specs.Words.{Turns, TurnsEach, Stretch, Recoded, mended};

use crate::JMP;
use store::{Scope, jump_back, pack_bx, set_word, word_at};

// The low half of a continue's and of a break's word, by which fn is_continue and fn is_break go: the opcode and a.
const CONTINUE: u32 = JMP + 256 * (instruction::JMP_CONTINUE as u32);

const BREAK: u32 = JMP + 256 * (instruction::JMP_BREAK as u32);

// A jump from instruction i of a loop to its instruction `goal`.
fn jump_to(goal: usize, i: usize) -> u32
    ensures { Packs result (inst_bx Jmp 0 (continue_offset goal i)) }
{
    if i <= goal {
        return pack_bx(JMP, 0, goal - i);
    }
    jump_back(i - goal)
}

// "Patch continue and break": instruction i of a loop's `size`, whose continues go to `goal`.
fn patch_jump(x: u32, goal: usize, size: usize, i: usize) -> u32
    requires { i ≤ size }
    ensures { Turns x (patch_jump goal size i) result }
{
    let kind = x % 65536;
    if kind == CONTINUE {
        return jump_to(goal, i);
    }
    if kind == BREAK {
        return pack_bx(JMP, 0, size - i);
    }
    x
}

// "Jump to the next instruction after this chunk": instruction i of an if's `size`.
fn patch_end(x: u32, size: usize, i: usize) -> u32
    requires { i ≤ size }
    ensures { Turns x (patch_end size i) result }
{
    if x == JMP {
        return pack_bx(JMP, 0, size - i);
    }
    x
}

// Each instruction from `first` up to `end` anew: `turn` gives its word, from the word that is there and its place behind `first`.
fn patch_each<F: Fn(u32, usize) -> u32>(
    work: &mut [u32],
    scope: Scope,
    first: usize,
    end: usize,
    turn: F,
)
    requires room { Stretch work.old scope first end }
    requires callable { (x i : ℕ) → x < 2 ^ 32 → i < end - first → F.pre turn x i }
    ensures { TurnsEach (λ x i y. F.post turn x i y) work.old (top_of scope) first end work.new }
{
    for i in first..end {
        let word = turn(word_at(work, scope, i), i - first);
        set_word(work, scope, i, word);
    }
}

// The continues and breaks of a loop; continues go to its instruction `goal`.
pub fn patch_loop(work: &mut [u32], scope: Scope, first: usize, end: usize, goal: usize)
    requires { Stretch work.old scope first end }
    ensures { Recoded work.old (top_of scope) end end (mended (patch_loop goal) first) work.new }
{
    let size = end - first;
    patch_each(work, scope, first, end, |x, i| patch_jump(x, goal, size, i));
}

// The jumps to the end of an if.
pub fn patch_ends(work: &mut [u32], scope: Scope, first: usize, end: usize)
    requires { Stretch work.old scope first end }
    ensures { Recoded work.old (top_of scope) end end (mended patch_ends first) work.new }
{
    let size = end - first;
    patch_each(work, scope, first, end, |x, i| patch_end(x, size, i));
}

// The first jump to the end of a try.
pub fn patch_first(work: &mut [u32], scope: Scope, first: usize, end: usize, offset: usize)
    requires { Stretch work.old scope first end }
    ensures { Recoded work.old (top_of scope) end end (mended (patch_first offset) first) work.new }
{
    for i in first..end {
        if word_at(work, scope, i) == JMP {
            set_word(work, scope, i, pack_bx(JMP, 0, offset));
            return;
        }
    }
}
