// visit_let_stmt; `let_stmt` of `cycle` lowers its initializer.
ghost use Rattle.std.specs.Prelude.{◌≡◌, ◌<◌};
ghost use Rattle.meaning.specs.Statements.{new_global};
ghost use Rattle.meaning.specs.Fields.{fields};
ghost use Rattle.meaning.specs.At.{tag_of, count_of};
ghost use Rattle.forward.specs.Forward.{fwd_number};
ghost use Rattle.store.specs.Store.{block_of, Fine};
ghost use Rattle.store.specs.Promise.{nothing, Space, Leaf};
ghost use Rattle.routines.specs.Node.{OnNode, GivesStmt};

use crate::{LOAD_NIL, SET_GLOBAL};
use meaning::{Cause, Token};
use store::{Scope, Step};

// visit_let_stmt, the name of a global: 10 Redefined.
pub fn new_global(work: &mut [u32], step: Step, scope: Scope, node: usize, token: Token) -> Step
    requires { Fine work.old scope step × Space work.old scope step 0 0 0 × (block_of scope ≡ 1) × (token.name < 65536) }
    ensures { Leaf work.old scope step work.new scope result nothing (fwd_number (new_global node token)) }
{
    if store::is_global_var(work, step, scope, token.name) {
        return step.refuse(Cause::Redefined, node);
    }
    let noted = store::add_global(work, step, scope, token.name);
    store::add_name(work, noted, scope, token.name, node)
}

// fn visit_let_stmt without an initializer: a global, or a local.
pub fn let_only(tree: &[u8], work: &mut [u32], step: Step, scope: Scope, node: usize) -> Step
    requires { OnNode tree.now work.old scope step 1 node × (tag_of (fields tree.now) node ≡ 0x11) × (count_of (fields tree.now) node ≡ 2) }
    ensures { GivesStmt tree.now work.old scope step work.new result node }
{
    let x = nodes::let_of(tree, work, node, scope.wide);
    if store::is_global_context(scope) {
        let constant = new_global(work, step, scope, node, x.token);
        let register = store::next_register(work, constant, scope, node);
        let nil = code::emit(
            work,
            register,
            scope,
            LOAD_NIL,
            register.result,
            0,
            0,
            x.token.mark,
        );
        return code::put_bx(
            work,
            nil,
            scope,
            SET_GLOBAL,
            register.result,
            constant.result,
            x.token.mark,
            0,
        );
    }
    let register = store::next_register(work, step, scope, node);
    store::allocate_register(work, register, scope, x.token.name, register.result);
    register
}
