// visit_call_expr; `call` and `arguments` of `cycle` lower its children.
ghost use Rattle.std.specs.Prelude.{◌≡◌, ◌+◌, ◌-◌, ◌<◌};
ghost use Rattle.forward.specs.Forward.{open_call, end_call};
ghost use Rattle.store.specs.Store.{outcome_of, result_of, while_going, Fine};
ghost use Rattle.store.specs.Promise.{uses, a_register, some_registers, both, Space, Leaf};
ghost use Rattle.routines.specs.Pieces.{Small};

use crate::MOVE;
use instruction::OpCode;
use store::{Scope, Step};

const CALL: u32 = OpCode::Call as u32;

// visit_call_expr after the callee: a register for the function, and one for each of n arguments.
pub fn open_call(
    work: &mut [u32],
    step: Step,
    scope: Scope,
    node: usize,
    n: usize,
    mark: u32,
) -> Step
    requires { Fine work.old scope step × Space work.old scope step 0 2 0 × (n < 65536) × while_going (outcome_of step) (result_of step < 256) }
    ensures { Leaf work.old scope step work.new scope result (both (some_registers (2 + (n - 1))) (uses 2 0 0)) (open_call node n mark) × while_going (outcome_of result) (result_of result + n < 255) }
{
    let function = store::next_register(work, step, scope, node);
    let moved = code::emit(
        work,
        function,
        scope,
        MOVE,
        function.result,
        step.result,
        0,
        mark,
    );
    let argument = store::next_register(work, moved, scope, node);
    let others = store::next_registers(work, argument, scope, node, n.saturating_sub(1));
    others.settle(function.result)
}

// visit_call_expr after the arguments.
pub fn end_call(
    work: &mut [u32],
    step: Step,
    scope: Scope,
    node: usize,
    n: usize,
    function: u32,
    mark: u32,
) -> Step
    requires { Fine work.old scope step × Space work.old scope step 0 2 0 × while_going (outcome_of step) ((n < 255) × (function < 256)) }
    ensures { Leaf work.old scope step work.new scope result (both a_register (uses 2 0 0)) (end_call node n function mark) × Small result }
{
    let Ok(_) = step.outcome else {
        return step;
    };
    let result = store::next_register(work, step, scope, node);
    code::emit(
        work,
        result,
        scope,
        CALL,
        function,
        n as u32 + 1,
        result.result + 1,
        mark,
    )
}
