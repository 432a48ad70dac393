// visit_if_stmt; `if_stmt` and `elifs` of `cycle` lower its children.
ghost use Rattle.std.specs.Prelude.{◌+◌, ◌≤◌};
ghost use Rattle.forward.specs.Forward.{sure, end_branch, end_if};
ghost use Rattle.store.specs.Store.{outcome_of, pc_of, Fine, while_going};
ghost use Rattle.store.specs.Promise.{uses, Space, Leaf};

use crate::JMP;
use crate::loops::jump_here;
use store::{Scope, Step};

// visit_if_stmt after the statements of a condition: the jump to the end, which end_if sets.
pub fn end_branch(work: &mut [u32], step: Step, scope: Scope, test: usize, mark: u32) -> Step
    requires { Fine work.old scope step × Space work.old scope step 0 2 0 × while_going (outcome_of step) (test + 2 ≤ pc_of step) }
    ensures { Leaf work.old scope step work.new scope result (uses 2 0 0) (sure (end_branch test mark)) }
{
    let Ok(_) = step.outcome else {
        return step;
    };
    let pc = step.pc;
    store::write_cell(work, scope, pc, JMP, mark);
    jump_here(work, scope, test, pc, mark);
    step.advance(pc + 1, 0)
}

// visit_if_stmt: every jump to the end, from `first` on.
pub fn end_if(work: &mut [u32], step: Step, scope: Scope, first: usize) -> Step
    requires { Fine work.old scope step × while_going (outcome_of step) (first ≤ pc_of step) }
    ensures { Leaf work.old scope step work.new scope result (uses 0 0 0) (sure (end_if first)) }
{
    let Ok(_) = step.outcome else {
        return step;
    };
    code::patch_ends(work, scope, first, step.pc);
    step.settle(0)
}
