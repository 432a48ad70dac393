// visit_fn_stmt; `fn_stmt` of `cycle` lowers its body.
ghost use Rattle.std.specs.Prelude.{◌+◌, ◌<◌, ◌≤◌, ◌-◌};
ghost use Rattle.forward.specs.Forward.{open_fun, end_fun};
ghost use Rattle.store.specs.Store.{depth_of, block_of, outcome_of, pc_of, while_going, Fine, inner};
ghost use Rattle.store.specs.Promise.{uses, some_registers, both, Space, Leaf};
ghost use Rattle.store.specs.Opening.{Leavable};
ghost use Rattle.code.specs.Cuts.{cut_step, Ends};
ghost use Rattle.routines.specs.Pieces.{Small, tokens_from, HasPairs, a_name_back, Owing};

use crate::bodies::{closure, parameters};
use crate::names::name_result;
use instruction::OpCode;
use meaning::Token;
use store::{Scope, Step};

const GET_CURRENT_FUNC: u32 = OpCode::GetCurrentFunc as u32;

// visit_fn_stmt after enter_function: the function is a local of its own.
pub fn open_fun(
    payload: &[u8],
    work: &mut [u32],
    step: Step,
    scope: Scope,
    node: usize,
    token: Token,
    from: usize,
    n: usize,
) -> Step
    requires { Fine work.old scope step × Space work.old scope step 0 0 0 × (token.name < 65536) × HasPairs scope payload.now from n }
    ensures { Leaf work.old scope step work.new scope result (both (some_registers (1 + n)) (uses (3 + n) (1 + n) 0)) (open_fun node token (tokens_from scope payload.now from n)) × Small result }
{
    let own = store::declare_parameter(work, step, scope, token.name, node);
    let last = parameters(payload, work, own, scope, node, from, n, scope.wide);
    code::emit(
        work,
        last,
        scope,
        GET_CURRENT_FUNC,
        own.result,
        0,
        0,
        token.mark,
    )
}

// visit_fn_stmt after its body; `scope` is the scope around the function.
pub fn end_fun(
    work: &mut [u32],
    out: &mut [u8],
    step: Step,
    scope: Scope,
    first: usize,
    node: usize,
    token: Token,
    params: usize,
    register: u32,
) -> Step
    requires { Fine work.old (inner scope) step × Leavable work.old scope × Owing work.old scope (cut_step step first) 4 1 (2 - (depth_of scope + block_of scope)) × while_going (outcome_of step) ((first ≤ pc_of step) × (register < 255)) × (params < 65536) × (token.name < 65536) }
    ensures { Ends first work.old out.old scope step work.new out.new result (both (uses 4 1 0) (a_name_back scope)) (end_fun first node token params register) × Small result }
{
    let left = code::leave_function(work, out, step, scope, first, node, params);
    let made = closure(work, left, scope, register, token.mark);
    name_result(work, made, scope, node, token)
}
