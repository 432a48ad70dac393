// visit_return_stmt; `return_stmt` of `cycle` lowers its value.
ghost use Rattle.std.specs.Prelude.{◌≡◌, ◌<◌};
ghost use Rattle.meaning.specs.Fields.{fields};
ghost use Rattle.meaning.specs.At.{tag_of, count_of};
ghost use Rattle.forward.specs.Forward.{end_return};
ghost use Rattle.store.specs.Store.{outcome_of, result_of, Fine, while_going};
ghost use Rattle.store.specs.Promise.{uses, Space, Leaf};
ghost use Rattle.routines.specs.Node.{OnNode, GivesStmt};

use crate::RETURN;
use meaning::Cause;
use store::{Scope, Step};

// fn visit_return_stmt without a value.
pub fn return_none(tree: &[u8], work: &mut [u32], step: Step, scope: Scope, node: usize) -> Step
    requires { OnNode tree.now work.old scope step 1 node × (tag_of (fields tree.now) node ≡ 0x18) × (count_of (fields tree.now) node ≡ 1) }
    ensures { GivesStmt tree.now work.old scope step work.new result node }
{
    let x = nodes::return_of(tree, work, node, scope.wide);
    code::put(work, step, scope, RETURN, 0, 0, 0, x.mark, 0)
}

// visit_return_stmt after the value: 13 Return.
pub fn end_return(work: &mut [u32], step: Step, scope: Scope, node: usize, mark: u32) -> Step
    requires { Fine work.old scope step × Space work.old scope step 0 2 0 × while_going (outcome_of step) (result_of step < 255) }
    ensures { Leaf work.old scope step work.new scope result (uses 2 0 0) (end_return node mark) }
{
    let Ok(_) = step.outcome else {
        return step;
    };
    let result = step.result;
    if result == 254 {
        return step.refuse(Cause::Returned, node);
    }
    code::put(work, step, scope, RETURN, result, result + 2, 0, mark, 0)
}
