// visit_function_expr; `function` of `cycle` lowers its body.
ghost use Rattle.std.specs.Prelude.{◌+◌, ◌<◌, ◌≤◌};
ghost use Rattle.forward.specs.Forward.{open_function, end_function};
ghost use Rattle.store.specs.Store.{outcome_of, pc_of, while_going, Fine, inner};
ghost use Rattle.store.specs.Promise.{uses, some_registers, both, Space, Leaf};
ghost use Rattle.store.specs.Opening.{Leavable};
ghost use Rattle.code.specs.Cuts.{cut_step, Ends};
ghost use Rattle.routines.specs.Pieces.{Small, tokens_from, HasPairs};

use crate::bodies::{closure, parameters};
use store::{Scope, Step};

// visit_function_expr after enter_function.
pub fn open_function(
    payload: &[u8],
    work: &mut [u32],
    step: Step,
    scope: Scope,
    node: usize,
    from: usize,
    n: usize,
) -> Step
    requires { Fine work.old scope step × Space work.old scope step 0 0 0 × HasPairs scope payload.now from n }
    ensures { Leaf work.old scope step work.new scope result (both (some_registers (1 + n)) (uses n n 0)) (open_function node (tokens_from scope payload.now from n)) × Small result }
{
    let own = store::next_register(work, step, scope, node);
    parameters(payload, work, own, scope, node, from, n, scope.wide)
}

// visit_function_expr after its body; `scope` is the scope around the function.
pub fn end_function(
    work: &mut [u32],
    out: &mut [u8],
    step: Step,
    scope: Scope,
    first: usize,
    node: usize,
    params: usize,
    register: u32,
    mark: u32,
) -> Step
    requires { Fine work.old (inner scope) step × Leavable work.old scope × Space work.old scope (cut_step step first) 0 2 0 × while_going (outcome_of step) ((first ≤ pc_of step) × (register < 255)) × (params < 65536) }
    ensures { Ends first work.old out.old scope step work.new out.new result (uses 2 0 0) (end_function first node params register mark) × Small result }
{
    let left = code::leave_function(work, out, step, scope, first, node, params);
    closure(work, left, scope, register, mark)
}
