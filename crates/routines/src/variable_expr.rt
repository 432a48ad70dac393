// visit_variable_expr, whole.
ghost use Rattle.std.specs.Prelude.{◌≡◌, ◌<◌};
ghost use Rattle.meaning.specs.State.{is_builtin_var};
ghost use Rattle.meaning.specs.Fields.{fields};
ghost use Rattle.meaning.specs.At.{tag_of};
ghost use Rattle.meaning.specs.Expressions.{named, visit_outside, visit_variable};
ghost use Rattle.forward.specs.Forward.{fwd};
ghost use Rattle.store.specs.Store.{Fine};
ghost use Rattle.store.specs.Promise.{nothing, Space};
ghost use Rattle.routines.specs.Node.{OnNode, Gives, GivesExpr};

use instruction::OpCode;
use meaning::{Cause, Token};
use store::{Scope, Step};

const GET_UPVAL: u32 = OpCode::GetUpval as u32;

const GET_GLOBAL: u32 = OpCode::GetGlobal as u32;

const GET_BUILTIN: u32 = OpCode::GetBuiltin as u32;

// A builtin or a global: its name is a constant.
fn named(work: &mut [u32], step: Step, scope: Scope, op: u32, node: usize, token: Token) -> Step
    requires { Fine work.old scope step × Space work.old scope step 0 0 0 × (op < 256) × (token.name < 65536) }
    ensures { Gives work.old scope step work.new result nothing (fwd (named op node token)) }
{
    let register = store::next_register(work, step, scope, node);
    let constant = store::add_name(work, register, scope, token.name, node);
    code::put_bx(
        work,
        constant,
        scope,
        op,
        register.result,
        constant.result,
        token.mark,
        register.result,
    )
}

// fn is_builtin_var: the names 0 to 8.
fn is_builtin_var(name: usize) -> bool
    ensures { result ≡ is_builtin_var name }
{
    name <= 8
}

// fn visit_variable_expr, after the current function's locals and the captures: 9 Undefined.
fn visit_outside(work: &mut [u32], step: Step, scope: Scope, node: usize, token: Token) -> Step
    requires { Fine work.old scope step × Space work.old scope step 0 0 0 × (token.name < 65536) }
    ensures { Gives work.old scope step work.new result nothing (fwd (visit_outside node token)) }
{
    if is_builtin_var(token.name) {
        return named(work, step, scope, GET_BUILTIN, node, token);
    }
    if store::is_global_var(work, step, scope, token.name) {
        return named(work, step, scope, GET_GLOBAL, node, token);
    }
    step.refuse(Cause::Undefined, node)
}

// fn visit_variable_expr: the latest local, then a capture.
fn visit_variable_expr(
    work: &mut [u32],
    step: Step,
    scope: Scope,
    node: usize,
    token: Token,
) -> Step
    requires { Fine work.old scope step × Space work.old scope step 0 0 0 × (token.name < 65536) }
    ensures { Gives work.old scope step work.new result nothing (fwd (visit_variable node token)) }
{
    if let Some(register) = store::get_var_register(work, scope, token.name) {
        return step.settle(register);
    }
    let sought = store::get_upvalue(work, step, scope, token.name, node);
    let Some(index) = sought.found else {
        return visit_outside(work, sought.step, scope, node, token);
    };
    let register = store::next_register(work, sought.step, scope, node);
    code::emit(
        work,
        register,
        scope,
        GET_UPVAL,
        register.result,
        index,
        0,
        token.mark,
    )
}

// A variable.
pub fn variable(tree: &[u8], work: &mut [u32], step: Step, scope: Scope, node: usize) -> Step
    requires { OnNode tree.now work.old scope step 1 node × (tag_of (fields tree.now) node ≡ 0x04) }
    ensures { GivesExpr tree.now work.old scope step work.new result node }
{
    let token = nodes::variable_of(tree, work, node, scope.wide);
    visit_variable_expr(work, step, scope, node, token)
}
