// Pending code in the work area: instructions put behind the others, cut off, patched, and made a prototype in the output (document 01, module 4).
// It knows no routine: those are in `routines`.
// stays: `work`, `step`, `scope` side by side. In a struct (tried, proves) each contract says two things more: the loan and the scope are the same.
#![tactic(auto)]

mod ahead;
mod one;
mod patches;
mod prototype;

pub use ahead::test_and_jump;
use instruction::OpCode;
pub use one::{emit, emit_bx, put, put_bx, roll_back};
pub use patches::{patch_ends, patch_first, patch_loop};
pub use prototype::{end_program, leave_function};

// The opcodes that several files write, here and in the crates above, by document 01's numbers; one that a single file writes stands there.
// stays: numbers, not an OpCode, since `put` and `emit` take any u32 that fits a byte, and a public function takes no narrower type.
pub const ADDI: u32 = OpCode::Addi as u32;

pub const JMP: u32 = OpCode::Jmp as u32;

pub const LOAD_K: u32 = OpCode::LoadK as u32;

pub const LOAD_NIL: u32 = OpCode::LoadNil as u32;

pub const MOVE: u32 = OpCode::Move as u32;

pub const RETURN: u32 = OpCode::Return as u32;

pub const SET_GLOBAL: u32 = OpCode::SetGlobal as u32;
