// Operators, as 01 numbers them.
ghost use Rattle.std.specs.Prelude.{◌≡◌, ◌<◌, ◌≤◌, eqb};
ghost use Rattle.meaning.specs.Fields.{fields};
ghost use Rattle.meaning.specs.At.{expr_at};
ghost use Rattle.meaning.specs.Syntax.{small_if};
ghost use Rattle.meaning.specs.Opcode.{unary_opcode, binary_opcode, or};
ghost use Rattle.meaning.specs.Expressions.{or_flag};
ghost use Rattle.routines.specs.Node.{Lawful};
ghost use Rattle.store.specs.Store.{nodes_of};
ghost use Rattle.values.specs.Literals.{small_as};

use instruction::OpCode;
use store::Scope;

const ADD: u32 = OpCode::Add as u32;

const SUB: u32 = OpCode::Sub as u32;

const DIV: u32 = OpCode::Div as u32;

const MOD: u32 = OpCode::Mod as u32;

const MUL: u32 = OpCode::Mul as u32;

const POW: u32 = OpCode::Pow as u32;

const LT: u32 = OpCode::Lt as u32;

const GT: u32 = OpCode::Gt as u32;

const LTE: u32 = OpCode::Lte as u32;

const GTE: u32 = OpCode::Gte as u32;

const EQ: u32 = OpCode::Eq as u32;

const NEQ: u32 = OpCode::Neq as u32;

const NOT: u32 = OpCode::Not as u32;

const NEG: u32 = OpCode::Neg as u32;

// stays: operators by number: the definition's `unary_opcode` and `binary_opcode` answer for any, 0 for one that is none.
// Token::Not, Token::Minus
pub(crate) fn unary_opcode(op: u32) -> u32
    ensures { (result ≡ unary_opcode op) × (result < 256) }
{
    match op {
        1 => NOT,
        2 => NEG,
        _ => 0,
    }
}

// The opcode of a binary operator.
pub(crate) fn binary_opcode(op: u32) -> u32
    ensures { (result ≡ binary_opcode op) × (result < 256) }
{
    match op {
        1 => ADD,
        2 => LT,
        3 => EQ,
        4 => NEQ,
        5 => GT,
        6 => GTE,
        7 => LTE,
        8 => SUB,
        9 => DIV,
        10 => MOD,
        11 => MUL,
        12 => POW,
        _ => 0,
    }
}

// Test's c: 1 at Or, 0 at And.
pub(crate) fn or_flag(op: u32) -> u32
    ensures { (result ≡ or_flag (eqb op or)) × (result < 256) }
{
    if op == 1 { 1 } else { 0 }
}

// The small number that the operand of operator `op` is, where that is the operator `asked` with an immediate form.
#[tactic(auto, unfolding(meaning::specs::Syntax::small_if))]
pub(crate) fn immediate(
    tree: &[u8],
    work: &[u32],
    scope: Scope,
    op: u32,
    asked: u32,
    child: usize,
) -> Option<u8>
    requires { Lawful tree.now work.now (nodes_of scope) × (child < nodes_of scope) × (nodes_of scope ≤ 32768) }
    ensures { result ≡ small_as (small_if (eqb op asked) (expr_at (fields tree.now) child)) }
{
    if op == asked {
        routines::small_operand(tree, work, scope, child)
    } else {
        None
    }
}
