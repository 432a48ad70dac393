// Expressions, by the table of 01's tags: what a node holds, and its reader.
ghost use Rattle.std.specs.Prelude.{◌≡◌, not, ◌+◌, ◌<◌, ◌≤◌, length, eqb};
ghost use Rattle.meaning.specs.Fields.{fields, words};
ghost use Rattle.meaning.specs.At.{tag_of, pairs_in, pair_place};
ghost use Rattle.meaning.specs.Functions.{first_mark};
ghost use Rattle.nodes.specs.Nodes.{Node, Width, variable_of, unary_of, binary_in, binary_of, logical_of, call_of, function_of};

use crate::words::{Words, count, more_words};
use meaning::{NO_MARK, Token};

// stays: the readers take (tree, work, node, wide) each, and no struct: docs/PROMISES.md names them with these arguments.
// stays: `op` is a number: `unary_of`, `binary_of` and `logical_of` promise the word itself, which may be of no operator.

// 04 variable: n m
pub fn variable_of(tree: &[u8], work: &[u32], node: usize, wide: usize) -> Token
    requires { Node tree.now work.now node × Width tree.now wide × (tag_of (fields tree.now) node ≡ 0x04) }
    ensures { result ≡ variable_of (fields tree.now) node }
{
    let words = Words::of(tree, work, node, wide);
    words.token(0)
}

// 05 unary: op m x
#[derive(Clone, Copy)]
pub struct Unary {
    pub op: u32,
    pub mark: u32,
    pub operand: usize,
}

// A unary.
pub fn unary_of(tree: &[u8], work: &[u32], node: usize, wide: usize) -> Unary
    requires { Node tree.now work.now node × Width tree.now wide × (tag_of (fields tree.now) node ≡ 0x05) }
    ensures { result ≡ unary_of (fields tree.now) node }
{
    let words = Words::of(tree, work, node, wide);
    Unary {
        op: words.word(0) as u32,
        mark: words.mark(1),
        operand: words.behind(2),
    }
}

// 06 binary, 07 logical: op m x x
#[derive(Clone, Copy)]
pub struct Binary {
    pub op: u32,
    pub mark: u32,
    pub left: usize,
    pub right: usize,
}

// What stands in the payload of either.
fn operands(x: &Words<'_>) -> Binary
    requires { 4 + x.now.wide ≤ length (words x.now.payload.now) }
    ensures { result ≡ binary_in (not (eqb x.now.wide 0)) (words x.now.payload.now) x.now.wide }
{
    Binary {
        op: x.word(0) as u32,
        mark: x.mark(1),
        left: x.behind(2),
        right: x.behind(3),
    }
}

// A binary.
pub fn binary_of(tree: &[u8], work: &[u32], node: usize, wide: usize) -> Binary
    requires { Node tree.now work.now node × Width tree.now wide × (tag_of (fields tree.now) node ≡ 0x06) }
    ensures { result ≡ binary_of (fields tree.now) node }
{
    operands(&Words::of(tree, work, node, wide))
}

// A logical.
pub fn logical_of(tree: &[u8], work: &[u32], node: usize, wide: usize) -> Binary
    requires { Node tree.now work.now node × Width tree.now wide × (tag_of (fields tree.now) node ≡ 0x07) }
    ensures { result ≡ logical_of (fields tree.now) node }
{
    operands(&Words::of(tree, work, node, wide))
}

// 08 call: callee m arguments..; how many arguments
#[derive(Clone, Copy)]
pub struct Call {
    pub callee: usize,
    pub mark: u32,
    pub arguments: usize,
}

// A call.
pub fn call_of(tree: &[u8], work: &[u32], node: usize, wide: usize) -> Call
    requires { Node tree.now work.now node × Width tree.now wide × (tag_of (fields tree.now) node ≡ 0x08) }
    ensures { (result ≡ call_of (fields tree.now) node) × (result.arguments < 65536) }
{
    let words = Words::of(tree, work, node, wide);
    Call {
        callee: words.word(0),
        mark: words.mark(1),
        arguments: count(words.payload) - (2 + words.wide),
    }
}

// 09 function: k, k pairs n m, body..; how many parameters, the mark of the first, and where the body ends
#[derive(Clone, Copy)]
pub struct Function {
    pub params: usize,
    pub mark: u32,
    pub end: usize,
}

// The mark of the first of n pairs from word 1 on, or none.
fn first_mark(x: &Words<'_>, n: usize) -> u32
    requires { (1 + pair_place (not (eqb x.now.wide 0)) n ≤ length (words x.now.payload.now)) × (x.now.wide ≤ 1) }
    ensures { result ≡ first_mark (pairs_in (not (eqb x.now.wide 0)) (words x.now.payload.now) 1 n) }
{
    if n == 0 {
        return NO_MARK;
    }
    x.mark(2)
}

// A function expression.
pub fn function_of(tree: &[u8], work: &[u32], node: usize, wide: usize) -> Function
    requires { Node tree.now work.now node × Width tree.now wide × (tag_of (fields tree.now) node ≡ 0x09) }
    ensures { (result ≡ function_of (fields tree.now) node) × (result.params < 65536) }
{
    let words = Words::of(tree, work, node, wide);
    let params = words.word(0);
    Function {
        params,
        mark: first_mark(&words, params),
        end: count(words.payload) - more_words(params, words.wide),
    }
}
