// Statements, by the table of 01's tags: what a node holds, and its reader.
ghost use Rattle.std.specs.Prelude.{◌≡◌, not, cond, is_none, ◌+◌, ◌-◌, ◌/◌, ◌<◌, ◌≤◌, eqb};
ghost use Rattle.meaning.specs.Fields.{fields};
ghost use Rattle.meaning.specs.At.{tag_of};
ghost use Rattle.nodes.specs.Nodes.{Node, Width, expr_stmt_of, let_of, while_of, for_of, for_in_of, jump_of, return_of, if_of, elif_of, try_of, define_of, class_of};

use crate::offsets::payload_of;
use crate::words::{Words, child, count, more_words};
use meaning::Token;

// stays: the readers take (tree, work, node, wide) each, and no struct: docs/PROMISES.md names them with these arguments.

// 10 expression: x; its value.
pub fn expr_stmt_of(tree: &[u8], work: &[u32], node: usize) -> usize
    requires { Node tree.now work.now node × (tag_of (fields tree.now) node ≡ 0x10) }
    ensures { result ≡ expr_stmt_of (fields tree.now) node }
{
    let payload = payload_of(tree, work, node);
    child(payload, 0)
}

// 11 let: n m and perhaps x
#[derive(Clone, Copy)]
pub struct Let {
    pub token: Token,
    pub value: Option<usize>,
}

// A let.
pub fn let_of(tree: &[u8], work: &[u32], node: usize, wide: usize) -> Let
    requires { Node tree.now work.now node × Width tree.now wide × (tag_of (fields tree.now) node ≡ 0x11) }
    ensures { (result ≡ let_of (fields tree.now) node) × (result.token.name < 65536) }
{
    let words = Words::of(tree, work, node, wide);
    Let {
        token: words.token(0),
        value: words.perhaps(2),
    }
}

// 13 while: m condition body
#[derive(Clone, Copy)]
pub struct While {
    pub mark: u32,
    pub condition: usize,
    pub body: usize,
}

// A while.
pub fn while_of(tree: &[u8], work: &[u32], node: usize, wide: usize) -> While
    requires { Node tree.now work.now node × Width tree.now wide × (tag_of (fields tree.now) node ≡ 0x13) }
    ensures { result ≡ while_of (fields tree.now) node }
{
    let words = Words::of(tree, work, node, wide);
    While {
        mark: words.mark(0),
        condition: words.behind(1),
        body: words.behind(2),
    }
}

// 14 for: m initializer condition increment body; the initializer may be absent
#[derive(Clone, Copy)]
pub struct For {
    pub mark: u32,
    pub initializer: Option<usize>,
    pub condition: usize,
    pub increment: usize,
    pub body: usize,
}

// The end of the row that a for's initializer is: it is word 1, or there is none.
pub fn initializer_end(initializer: Option<usize>) -> usize
    ensures { result ≡ cond (is_none initializer) 1 2 }
{
    if initializer.is_none() { 1 } else { 2 }
}

// A for.
pub fn for_of(tree: &[u8], work: &[u32], node: usize, wide: usize) -> For
    requires { Node tree.now work.now node × Width tree.now wide × (tag_of (fields tree.now) node ≡ 0x14) }
    ensures { result ≡ for_of (fields tree.now) node }
{
    let words = Words::of(tree, work, node, wide);
    For {
        mark: words.mark(0),
        initializer: words.present(1),
        condition: words.behind(2),
        increment: words.behind(3),
        body: words.behind(4),
    }
}

// 15 for-in: m collection body, pairs n m, at least one; how many names
#[derive(Clone, Copy)]
pub struct ForIn {
    pub mark: u32,
    pub collection: usize,
    pub body: usize,
    pub names: usize,
}

// How many pairs follow the first three words, of which the file has n words in all.
fn names_in(n: usize, wide: usize) -> usize
    requires { (3 + wide ≤ n) × (wide ≤ 1) }
    ensures { result ≡ cond (not (eqb wide 0)) ((n - 4) / 3) ((n - 3) / 2) }
{
    if wide == 0 {
        return (n - 3) / 2;
    }
    (n - 4) / 3
}

// A for-in.
pub fn for_in_of(tree: &[u8], work: &[u32], node: usize, wide: usize) -> ForIn
    requires { Node tree.now work.now node × Width tree.now wide × (tag_of (fields tree.now) node ≡ 0x15) }
    ensures { (result ≡ for_in_of (fields tree.now) node) × (result.names < 65536) }
{
    let words = Words::of(tree, work, node, wide);
    ForIn {
        mark: words.mark(0),
        collection: words.behind(1),
        body: words.behind(2),
        names: names_in(count(words.payload), words.wide),
    }
}

// 16 break, 17 continue: m; the mark.
pub fn jump_of(tree: &[u8], work: &[u32], node: usize, wide: usize) -> u32
    requires { Node tree.now work.now node × Width tree.now wide × (0x16 ≤ tag_of (fields tree.now) node) × (tag_of (fields tree.now) node ≤ 0x17) }
    ensures { result ≡ jump_of (fields tree.now) node }
{
    let words = Words::of(tree, work, node, wide);
    words.mark(0)
}

// 18 return: m and perhaps x
#[derive(Clone, Copy)]
pub struct Return {
    pub mark: u32,
    pub value: Option<usize>,
}

// A return.
pub fn return_of(tree: &[u8], work: &[u32], node: usize, wide: usize) -> Return
    requires { Node tree.now work.now node × Width tree.now wide × (tag_of (fields tree.now) node ≡ 0x18) }
    ensures { result ≡ return_of (fields tree.now) node }
{
    let words = Words::of(tree, work, node, wide);
    Return {
        mark: words.mark(0),
        value: words.perhaps(1),
    }
}

// 19 if: m condition t, t x, e, e elifs, else x..; where its statements, its elifs and its else end
#[derive(Clone, Copy)]
pub struct If {
    pub mark: u32,
    pub condition: usize,
    pub thens: usize,
    pub elifs: usize,
    pub end: usize,
}

// An if.
pub fn if_of(tree: &[u8], work: &[u32], node: usize, wide: usize) -> If
    requires { Node tree.now work.now node × Width tree.now wide × (tag_of (fields tree.now) node ≡ 0x19) }
    ensures { (result ≡ if_of (fields tree.now) node) × (result.thens < 65539) }
{
    let words = Words::of(tree, work, node, wide);
    let t = words.behind(2);
    let e = words.behind(3 + t);
    If {
        mark: words.mark(0),
        condition: words.behind(1),
        thens: 3 + t,
        elifs: 4 + t + e,
        end: count(words.payload) - words.wide,
    }
}

// 1A elif: condition x..; where it ends
#[derive(Clone, Copy)]
pub struct Elif {
    pub condition: usize,
    pub end: usize,
}

// An elif.
pub fn elif_of(tree: &[u8], work: &[u32], node: usize) -> Elif
    requires { Node tree.now work.now node × (tag_of (fields tree.now) node ≡ 0x1A) }
    ensures { result ≡ elif_of (fields tree.now) node }
{
    let payload = payload_of(tree, work, node);
    Elif {
        condition: child(payload, 0),
        end: count(payload),
    }
}

// 1B try: body n m catch body
#[derive(Clone, Copy)]
pub struct Try {
    pub body: usize,
    pub token: Token,
    pub catch: usize,
}

// A try.
pub fn try_of(tree: &[u8], work: &[u32], node: usize, wide: usize) -> Try
    requires { Node tree.now work.now node × Width tree.now wide × (tag_of (fields tree.now) node ≡ 0x1B) }
    ensures { result ≡ try_of (fields tree.now) node }
{
    let words = Words::of(tree, work, node, wide);
    Try {
        body: words.word(0),
        token: words.token(1),
        catch: words.behind(3),
    }
}

// 1C function statement: n m k, k pairs n m, body..; how many parameters, and where the body ends
#[derive(Clone, Copy)]
pub struct Define {
    pub token: Token,
    pub params: usize,
    pub end: usize,
}

// A function statement.
pub fn define_of(tree: &[u8], work: &[u32], node: usize, wide: usize) -> Define
    requires { Node tree.now work.now node × Width tree.now wide × (tag_of (fields tree.now) node ≡ 0x1C) }
    ensures { (result ≡ define_of (fields tree.now) node) × (result.params < 65536) }
{
    let words = Words::of(tree, work, node, wide);
    let params = words.behind(2);
    Define {
        token: words.token(0),
        params: params,
        end: count(words.payload) - (words.wide + more_words(params, words.wide)),
    }
}

// 1D class: n m superclass s, s methods, static methods..; how many methods, and where the static ones end
#[derive(Clone, Copy)]
pub struct Class {
    pub token: Token,
    pub superclass: Option<usize>,
    pub methods: usize,
    pub end: usize,
}

// A class.
pub fn class_of(tree: &[u8], work: &[u32], node: usize, wide: usize) -> Class
    requires { Node tree.now work.now node × Width tree.now wide × (tag_of (fields tree.now) node ≡ 0x1D) }
    ensures { (result ≡ class_of (fields tree.now) node) × (result.methods < 65536) }
{
    let words = Words::of(tree, work, node, wide);
    Class {
        token: words.token(0),
        superclass: words.present(2),
        methods: words.behind(3),
        end: count(words.payload) - words.wide,
    }
}
