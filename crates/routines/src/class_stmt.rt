// visit_class_stmt; `class` and `methods` of `cycle` lower its methods.
ghost use Rattle.std.specs.Prelude.{◌≡◌, ◌+◌, ◌<◌};
ghost use Rattle.meaning.specs.Fields.{fields};
ghost use Rattle.meaning.specs.At.{tag_of};
ghost use Rattle.meaning.specs.Weight.{size_super};
ghost use Rattle.forward.specs.Forward.{open_class, add_method, end_class, sure, make_class};
ghost use Rattle.store.specs.Store.{outcome_of, result_of, while_going, Fine};
ghost use Rattle.store.specs.Promise.{uses, some_registers, both, Space, Leaf};
ghost use Rattle.routines.specs.Pieces.{Small};
ghost use Rattle.routines.specs.Node.{OnNode, super_of, GivesSuper};

use crate::names::{declare, name_result};
use crate::variable_expr::variable;
use crate::{LOAD_K, LOAD_NIL};
use instruction::OpCode;
use meaning::Token;
use store::{Scope, Step};

const CLASS: u32 = OpCode::Class as u32;

// visit_class_stmt before the superclass: the class's register, and that of names, with the class's own.
pub fn open_class(work: &mut [u32], step: Step, scope: Scope, node: usize, token: Token) -> Step
    requires { Fine work.old scope step × Space work.old scope step 0 0 0 × (token.name < 65536) }
    ensures { Leaf work.old scope step work.new scope result (both (some_registers 2) (uses 2 0 0)) (open_class node token) × while_going (outcome_of result) (result_of result + 1 < 255) }
{
    let class = declare(work, step, scope, node, token);
    let tmp = store::next_register(work, class, scope, node);
    let k = store::add_name(work, tmp, scope, token.name, node);
    code::put_bx(
        work,
        k,
        scope,
        LOAD_K,
        tmp.result,
        k.result,
        token.mark,
        class.result,
    )
}

// The superclass of a class: a variable, which is visited here, or nil.
pub fn superclass(tree: &[u8], work: &mut [u32], step: Step, scope: Scope, node: usize) -> Step
    requires { OnNode tree.now work.old scope step (size_super (super_of tree.now node)) node × (tag_of (fields tree.now) node ≡ 0x1D) }
    ensures { GivesSuper tree.now work.old scope step work.new result node }
{
    let x = nodes::class_of(tree, work, node, scope.wide);
    if let Some(superclass) = x.superclass {
        store::visit(work);
        return variable(tree, work, step, scope, superclass);
    }
    let register = store::next_register(work, step, scope, node);
    code::emit(
        work,
        register,
        scope,
        LOAD_NIL,
        register.result,
        0,
        0,
        x.token.mark,
    )
}

// Class, of the superclass that is the result.
pub fn make_class(work: &mut [u32], step: Step, scope: Scope, class: u32, mark: u32) -> Step
    requires { Fine work.old scope step × Space work.old scope step 0 2 0 × while_going (outcome_of step) ((class < 255) × (result_of step < 256)) }
    ensures { Leaf work.old scope step work.new scope result (uses 2 0 0) (sure (make_class class mark)) }
{
    let Ok(_) = step.outcome else {
        return step;
    };
    code::emit(
        work,
        step,
        scope,
        CLASS,
        class,
        class + 1,
        step.result,
        mark,
    )
}

// A method that is the result; `op` is ClassMeth or ClassStMeth.
pub fn add_method(
    work: &mut [u32],
    step: Step,
    scope: Scope,
    node: usize,
    mark: u32,
    op: u32,
    class: u32,
    tmp: u32,
    name: usize,
) -> Step
    requires { Fine work.old scope step × Space work.old scope step 0 4 0 × (name < 65536) × while_going (outcome_of step) ((op < 256) × (class < 256) × (tmp < 256) × (result_of step < 256)) }
    ensures { Leaf work.old scope step work.new scope result (uses 4 0 0) (add_method node mark op class tmp name) }
{
    let k = store::add_name(work, step, scope, name, node);
    let loaded = code::emit_bx(work, k, scope, LOAD_K, tmp, k.result, mark);
    code::emit(work, loaded, scope, op, class, tmp, step.result, mark)
}

// visit_class_stmt after the methods.
pub fn end_class(
    work: &mut [u32],
    step: Step,
    scope: Scope,
    node: usize,
    token: Token,
    class: u32,
) -> Step
    requires { Fine work.old scope step × Space work.old scope step 0 2 1 × (token.name < 65536) × while_going (outcome_of step) (class < 255) }
    ensures { Leaf work.old scope step work.new scope result (uses 2 1 0) (end_class node token class) × Small result }
{
    let Ok(_) = step.outcome else {
        return step;
    };
    let made = step.settle(class);
    name_result(work, made, scope, node, token)
}
