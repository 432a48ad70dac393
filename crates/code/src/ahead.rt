// A jump over code that is not there yet.
ghost use Rattle.std.specs.Prelude.{◌<◌};
ghost use Rattle.forward.specs.Forward.{sure, test_and_jump};
ghost use Rattle.store.specs.Store.{outcome_of, result_of, Fine, while_going};
ghost use Rattle.store.specs.Promise.{uses, Space, Leaf};

use crate::{JMP, emit};
use instruction::OpCode;
use store::{Scope, Step};

const TEST: u32 = OpCode::Test as u32;

// Test of the result, and a jump to be set later.
pub fn test_and_jump(work: &mut [u32], step: Step, scope: Scope, flag: u32, mark: u32) -> Step
    requires { Fine work.old scope step × Space work.old scope step 0 4 0 × while_going (outcome_of step) ((result_of step < 256) × (flag < 256)) }
    ensures { Leaf work.old scope step work.new scope result (uses 4 0 0) (sure (test_and_jump flag mark)) }
{
    let result = step.result;
    let tested = emit(work, step, scope, TEST, result, result, flag, mark);
    emit(work, tested, scope, JMP, 0, 0, 0, mark)
}
