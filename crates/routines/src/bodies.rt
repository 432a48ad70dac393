// A function's parameters, the end of its body and its Closure, which visit_fn_stmt and visit_function_expr share (`body` of `cycle`).
ghost use Rattle.std.specs.Prelude.{◌≡◌, ◌+◌, ◌<◌, ◌≤◌};
ghost use Rattle.meaning.specs.Functions.{parameters};
ghost use Rattle.forward.specs.Forward.{fwd_zero, sure, closure, end_body};
ghost use Rattle.store.specs.Layout.{first_local};
ghost use Rattle.store.specs.Store.{nodes_of, top_of, wide_of, outcome_of, pc_of, result_of, while_going, Fine};
ghost use Rattle.store.specs.Promise.{uses, some_registers, both, Space, Leaf, live};
ghost use Rattle.routines.specs.Pieces.{tokens_from, HasPairs};

use crate::RETURN;
use instruction::OpCode;
use meaning::Cause;
use store::{Scope, Step};

const CLOSURE: u32 = OpCode::Closure as u32;

// stays: `payload`, `from`, `n` in six: `HasPairs` needs the scope too, so a struct would carry `wide` again; three are public, named by docs/PROMISES.

// A register and a local for each of the n parameters from word `from` of the payload on. `wide` is the scope's: asked for once, so that no turn takes the scope apart.
pub(crate) fn parameters(
    payload: &[u8],
    work: &mut [u32],
    step: Step,
    scope: Scope,
    node: usize,
    from: usize,
    n: usize,
    wide: usize,
) -> Step
    requires { Fine work.old scope step × Space work.old scope step 0 0 0 × HasPairs scope payload.now from n × (wide ≡ wide_of scope) }
    ensures { Leaf work.old scope step work.new scope result (both (some_registers n) (uses n n 0)) (fwd_zero (parameters node (tokens_from scope payload.now from n))) × (result_of result < 255) }
{
    let mut last = step;
    for k in 0..n {
        let name = nodes::pair(payload, from, k, wide);
        last = store::declare_parameter(work, last, scope, name, node);
    }
    last.settle(0)
}

// The end of a body of `count` statements that begins at `first`: 13 Return, then 12 Empty, for one statement alone.
pub fn end_body(
    work: &mut [u32],
    step: Step,
    scope: Scope,
    count: usize,
    first: usize,
    node: usize,
) -> Step
    requires { Fine work.old scope step × Space work.old scope step 0 2 0 × while_going (outcome_of step) (first ≤ pc_of step) × while_going (outcome_of step) (result_of step < 255) }
    ensures { Leaf work.old scope step work.new scope result (uses 2 0 0) (end_body count first node) }
{
    let Ok(_) = step.outcome else {
        return step;
    };
    let pc = step.pc;
    let result = step.result;
    if count == 1 {
        if result == 254 {
            return step.refuse(Cause::Returned, node);
        }
        if pc == first {
            return step.refuse(Cause::Empty, node);
        }
        let mark = store::mark_at(work, scope, pc - 1);
        return code::put(work, step, scope, RETURN, result, result + 2, 0, mark, 0);
    }
    step.advance(pc, 0)
}

// Closure of the prototype that is the result.
// stays: written out, for `put_bx` asks for `Space`, and in end_fun a global's name is still owed (`Owing`) at this call.
pub(crate) fn closure(work: &mut [u32], step: Step, scope: Scope, register: u32, mark: u32) -> Step
    requires { Fine work.old scope step × while_going (outcome_of step) ((first_local (nodes_of scope) + live work.old scope step + 2 ≤ top_of scope) × (register < 256)) }
    ensures { Leaf work.old scope step work.new scope result (uses 2 0 0) (sure (closure register mark)) }
{
    let Ok(_) = step.outcome else {
        return step;
    };
    let pc = step.pc;
    let word = store::pack_bx(CLOSURE, register, step.result as usize);
    store::write_cell(work, scope, pc, word, mark);
    step.advance(pc + 1, register)
}
