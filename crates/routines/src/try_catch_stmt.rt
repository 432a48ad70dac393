// visit_try_catch_stmt; `try_catch` of `cycle` lowers its children.
ghost use Rattle.std.specs.Prelude.{◌<◌, ◌≤◌};
ghost use Rattle.forward.specs.Forward.{sure, open_try_body, end_try_body, end_try, open_catch};
ghost use Rattle.store.specs.Store.{outcome_of, pc_of, Fine, while_going};
ghost use Rattle.store.specs.Promise.{uses, Space, Leaf, a_register, both};

use crate::JMP;
use instruction::OpCode;
use meaning::{NO_MARK, Token};
use store::{Scope, Step};

const REGISTER_TRY_CATCH: u32 = OpCode::RegisterTryCatch as u32;

const DEREGISTER_TRY_CATCH: u32 = OpCode::DeregisterTryCatch as u32;

const GET_EXCEPT: u32 = OpCode::GetExcept as u32;

// visit_try_catch_stmt before the body.
pub fn open_try_body(work: &mut [u32], step: Step, scope: Scope) -> Step
    requires { Fine work.old scope step × Space work.old scope step 0 2 0 }
    ensures { Leaf work.old scope step work.new scope result (uses 2 0 0) (sure open_try_body) }
{
    code::emit(work, step, scope, REGISTER_TRY_CATCH, 0, 0, 0, NO_MARK)
}

// visit_try_catch_stmt after the body.
pub fn end_try_body(work: &mut [u32], step: Step, scope: Scope) -> Step
    requires { Fine work.old scope step × Space work.old scope step 0 4 0 }
    ensures { Leaf work.old scope step work.new scope result (uses 4 0 0) (sure end_try_body) }
{
    let ended = code::emit(work, step, scope, DEREGISTER_TRY_CATCH, 0, 0, 0, NO_MARK);
    code::emit(work, ended, scope, JMP, 0, 0, 0, NO_MARK)
}

// visit_try_catch_stmt before the catch part's body.
pub fn open_catch(work: &mut [u32], step: Step, scope: Scope, node: usize, token: Token) -> Step
    requires { Fine work.old scope step × Space work.old scope step 0 2 0 × (token.name < 65536) }
    ensures { Leaf work.old scope step work.new scope result (both a_register (uses 5 1 0)) (open_catch node token) }
{
    let caught = store::declare_parameter(work, step, scope, token.name, node);
    let gotten = code::emit(
        work,
        caught,
        scope,
        GET_EXCEPT,
        caught.result,
        0,
        0,
        token.mark,
    );
    code::emit(work, gotten, scope, DEREGISTER_TRY_CATCH, 0, 0, 0, NO_MARK)
}

// visit_try_catch_stmt: RegisterTryCatch at `first`, then the first jump that is not set; `body` is the length after the body.
pub fn end_try(work: &mut [u32], step: Step, scope: Scope, first: usize, body: usize) -> Step
    requires { Fine work.old scope step × while_going (outcome_of step) ((first ≤ body) × (body < pc_of step)) }
    ensures { Leaf work.old scope step work.new scope result (uses 0 0 0) (sure (end_try first body)) }
{
    let Ok(_) = step.outcome else {
        return step;
    };
    let pc = step.pc;
    let word = store::pack_bx(REGISTER_TRY_CATCH, 0, body + 2 - first);
    store::write_cell(work, scope, first, word, NO_MARK);
    code::patch_first(work, scope, first, pc, pc - (body + 1));
    step.settle(0)
}
