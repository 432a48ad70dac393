// visit_literal_expr, whole.
ghost use Rattle.std.specs.Prelude.{◌≤◌};
ghost use Rattle.meaning.specs.Fields.{fields};
ghost use Rattle.meaning.specs.At.{tag_of};
ghost use Rattle.routines.specs.Node.{OnNode, GivesExpr};

use crate::LOAD_K;
use meaning::NO_MARK;
use store::{Scope, Step};

// fn visit_literal_expr
pub fn literal(tree: &[u8], work: &mut [u32], step: Step, scope: Scope, node: usize) -> Step
    requires { OnNode tree.now work.old scope step 1 node × (0x01 ≤ tag_of (fields tree.now) node) × (tag_of (fields tree.now) node ≤ 0x03) }
    ensures { GivesExpr tree.now work.old scope step work.new result node }
{
    let tag = nodes::tag_of(tree, work, node);
    let payload = nodes::payload_of(tree, work, node);
    let value = values::literal_of(tag, payload);
    let register = store::next_register(work, step, scope, node);
    let constant = store::add_constant(work, register, scope, value, node);
    code::put_bx(
        work,
        constant,
        scope,
        LOAD_K,
        register.result,
        constant.result,
        NO_MARK,
        register.result,
    )
}
