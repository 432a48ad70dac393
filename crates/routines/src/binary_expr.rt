// visit_binary_expr: what binary_literal asks of an operand; `binary`, `addi`, `minus` and `both` of `cycle` lower the operands.
ghost use Rattle.std.specs.Prelude.{◌≡◌, ◌<◌, ◌≤◌};
ghost use Rattle.meaning.specs.Fields.{fields};
ghost use Rattle.meaning.specs.At.{expr_at};
ghost use Rattle.meaning.specs.Syntax.{small_operand};
ghost use Rattle.routines.specs.Node.{Lawful};
ghost use Rattle.store.specs.Store.{nodes_of};
ghost use Rattle.values.specs.Literals.{small_as};

use store::Scope;

// The number from 0 to 255 that an operand is, if it is one.
pub fn small_operand(tree: &[u8], work: &[u32], scope: Scope, node: usize) -> Option<u8>
    requires { Lawful tree.now work.now (nodes_of scope) × (node < nodes_of scope) × (nodes_of scope ≤ 32768) }
    ensures { result ≡ small_as (small_operand (expr_at (fields tree.now) node)) }
{
    if nodes::tag_of(tree, work, node) != 0x01 {
        return None;
    }
    let payload = nodes::payload_of(tree, work, node);
    values::small(values::number_of(values::bits_at(payload)))
}
