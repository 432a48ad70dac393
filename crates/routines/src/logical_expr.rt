// visit_logical_expr; `logical` of `cycle` lowers its sides.
ghost use Rattle.std.specs.Prelude.{◌+◌, ◌<◌, ◌≤◌};
ghost use Rattle.forward.specs.Forward.{sure, end_logical};
ghost use Rattle.store.specs.Store.{outcome_of, pc_of, result_of, Fine, while_going};
ghost use Rattle.store.specs.Promise.{uses, Space, Leaf};

use crate::MOVE;
use crate::loops::jump_here;
use store::{Scope, Step};

// visit_logical_expr after its right side; the left side's result is the whole's.
pub fn end_logical(
    work: &mut [u32],
    step: Step,
    scope: Scope,
    test: usize,
    left: u32,
    mark: u32,
) -> Step
    requires { Fine work.old scope step × Space work.old scope step 0 2 0 × while_going (outcome_of step) ((test + 2 ≤ pc_of step) × (left < 256) × (result_of step < 256)) }
    ensures { Leaf work.old scope step work.new scope result (uses 2 0 0) (sure (end_logical test left mark)) }
{
    let Ok(_) = step.outcome else {
        return step;
    };
    let pc = step.pc;
    let word = store::pack(MOVE, left, step.result, 0);
    store::write_cell(work, scope, pc, word, mark);
    jump_here(work, scope, test, pc, mark);
    step.advance(pc + 1, left)
}
