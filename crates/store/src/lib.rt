// Module 3 of document 01: registers, blocks, locals, captures, globals and constants in the lent work area. specs/Layout.antt has its table.
#![tactic(auto)]

mod block;
mod capture;
mod cell;
mod constant;
mod count;
mod function;
mod global;
mod half;
mod layout;
mod local;
mod register;
mod scopes;
mod start;
mod steps;

pub use block::{enter_block, leave_block};
pub use capture::{capture_word, get_upvalue};
pub use cell::{
    inst_at, jump_back, mark_at, pack, pack_bx, set_word, unpacked, word_at, write_cell,
};
pub use constant::{add_constant, add_name};
pub use count::{visit, visits};
pub use function::enter_function;
pub use global::{add_global, is_global_context, is_global_var};
pub use layout::{HELD, NAMES, NUMBER, REGISTERS, TEXT};
pub use local::{allocate_register, declare_parameter, get_var_register};
pub use register::{next_register, next_registers};
pub use start::begin;

// stays: `work`, `step` and `scope` side by side, and `Fine` of them in each contract: code/src/lib.rt says what a struct of them would cost.
// Where the lowering stands: the outcome so far (accepted with the bytes of the finished prototypes), how many instructions are pending,
// constants, globals and finished prototypes there are, and the register of the last result.
#[derive(Clone, Copy)]
pub struct Step {
    pub outcome: Result<usize, meaning::Refusal>,
    pub pc: usize,
    pub constants: usize,
    pub globals: usize,
    pub functions: usize,
    pub result: u32,
}

// stays: `mode` and `wide` are numbers, since `Scope::main` takes any and `Begun` (specs/Opening) speaks of any.
// What is lexical: the number of nodes, which fixes the layout; of functions around the current one; of open blocks; of the current function's open loops; the mode of the call; and whether the marks have four bytes.
#[derive(Clone, Copy)]
pub struct Scope {
    pub nodes: usize,
    pub depth: usize,
    pub block: usize,
    pub loops: usize,
    pub mode: usize,
    pub wide: usize,
}

// A step with what it found: the index of a capture, or nothing.
#[derive(Clone, Copy)]
pub struct Lookup {
    pub step: Step,
    pub found: Option<u32>,
}

// A step with the scope inside.
#[derive(Clone, Copy)]
pub struct Entered {
    pub step: Step,
    pub scope: Scope,
}
