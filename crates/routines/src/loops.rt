// The end of a loop, which visit_classic_for_stmt, visit_enhanced_for_stmt and visit_while_stmt share (`for_loop`, `for_in`, `while_loop` of `cycle`),
// and the jump behind a Test, which visit_if_stmt and visit_logical_expr set too.
ghost use Rattle.std.specs.Prelude.{◌≡◌, ◌+◌, ◌-◌, ◌*◌, ◌<◌, ◌≤◌, length};
ghost use Rattle.meaning.specs.Chunk.{continue_goal};
ghost use Rattle.forward.specs.Forward.{sure, end_loop};
ghost use Rattle.store.specs.Store.{nodes_of, top_of, mode_of, outcome_of, pc_of, Fine, while_going};
ghost use Rattle.store.specs.Promise.{uses, Space, Leaf};
ghost use Rattle.code.specs.Words.{Recoded};
ghost use Rattle.routines.specs.Pieces.{SetsJump, closed_loop};

use crate::JMP;
use store::{Scope, Step};

// stays: `mode` is Scope's number (store/src/lib.rt).
// Where continue goes, counted from the loop's first instruction: in mode 1 to the increment.
pub(crate) fn continue_goal(mode: usize, first: usize, increment: usize) -> usize
    requires { first ≤ increment }
    ensures { result ≡ continue_goal mode (increment - first) }
{
    if mode == 1 { increment - first } else { 0 }
}

// The jump behind the Test at `test`, over the code up to instruction `end` and that one.
pub(crate) fn jump_here(work: &mut [u32], scope: Scope, test: usize, end: usize, mark: u32)
    requires { (top_of scope ≤ length work.old) × (2 * test + 4 ≤ top_of scope) × (nodes_of scope ≤ 32768) × (test ≤ end) }
    ensures { SetsJump work.old (top_of scope) test end mark work.new }
{
    let jump = store::pack_bx(JMP, 0, end - test);
    store::write_cell(work, scope, test + 1, jump, mark);
}

// The end of a loop, behind `code` instructions: the jump back, the jump out, breaks and continues.
pub(crate) fn close_loop(
    work: &mut [u32],
    scope: Scope,
    code: usize,
    goal: usize,
    first: usize,
    condition: usize,
    test: usize,
    mark: u32,
)
    requires { (top_of scope ≤ length work.old) × (2 * code + 2 ≤ top_of scope) × (nodes_of scope ≤ 32768) × (first ≤ code) × (condition ≤ code) × (test + 2 ≤ code) }
    ensures { Recoded work.old (top_of scope) code (code + 1) (closed_loop goal first condition test mark) work.new }
{
    store::write_cell(work, scope, code, store::jump_back(code - condition), mark);
    jump_here(work, scope, test, code, mark);
    code::patch_loop(work, scope, first, code + 1, goal);
}

// The end of visit_while_stmt and visit_classic_for_stmt.
pub fn end_loop(
    work: &mut [u32],
    step: Step,
    scope: Scope,
    first: usize,
    increment: usize,
    condition: usize,
    test: usize,
    res: u32,
    mark: u32,
) -> Step
    requires { Fine work.old scope step × Space work.old scope step 0 2 0 × while_going (outcome_of step) ((first ≤ pc_of step) × (condition ≤ pc_of step) × (test + 2 ≤ pc_of step) × (res < 256) × (first ≤ increment)) }
    ensures { Leaf work.old scope step work.new scope result (uses 2 0 0) (sure (end_loop (mode_of scope) first increment condition test res mark)) }
{
    let Ok(_) = step.outcome else {
        return step;
    };
    let pc = step.pc;
    let goal = continue_goal(scope.mode, first, increment);
    close_loop(work, scope, pc, goal, first, condition, test, mark);
    step.advance(pc + 1, res)
}
