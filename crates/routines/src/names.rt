// The name of a function or a class, which visit_fn_stmt and visit_class_stmt give.
ghost use Rattle.std.specs.Prelude.{◌+◌, ◌-◌, ◌<◌};
ghost use Rattle.forward.specs.Forward.{declare, name_result};
ghost use Rattle.store.specs.Store.{depth_of, block_of, Fine};
ghost use Rattle.store.specs.Promise.{uses, a_register, both, Space, Leaf};
ghost use Rattle.routines.specs.Pieces.{Small, a_name, a_name_back, Owing};

use crate::SET_GLOBAL;
use meaning::Token;
use store::{Scope, Step};

// The register of a function or a class, whose name is known from here on where it is a global's.
pub fn declare(work: &mut [u32], step: Step, scope: Scope, node: usize, token: Token) -> Step
    requires { Fine work.old scope step × Space work.old scope step 0 0 0 × (token.name < 65536) }
    ensures { Leaf work.old scope step work.new scope result (both a_register (a_name scope)) (declare node token) × Small result }
{
    let register = store::next_register(work, step, scope, node);
    if store::is_global_context(scope) {
        store::add_global(work, register, scope, token.name)
    } else {
        register
    }
}

// The result gets its name: SetGlobal, or a local.
pub(crate) fn name_result(
    work: &mut [u32],
    step: Step,
    scope: Scope,
    node: usize,
    token: Token,
) -> Step
    requires { Fine work.old scope step × Owing work.old scope step 2 1 (2 - (depth_of scope + block_of scope)) × Small step × (token.name < 65536) }
    ensures { Leaf work.old scope step work.new scope result (both (uses 2 1 0) (a_name_back scope)) (name_result node token) × Small result }
{
    if store::is_global_context(scope) {
        let k = store::add_name(work, step, scope, token.name, node);
        code::put_bx(
            work,
            k,
            scope,
            SET_GLOBAL,
            step.result,
            k.result,
            token.mark,
            step.result,
        )
    } else {
        store::allocate_register(work, step, scope, token.name, step.result);
        step
    }
}
