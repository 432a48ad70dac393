// The pool of constants.
ghost use Rattle.std.specs.Prelude.{◌≡◌, ◌<◌};
ghost use Rattle.meaning.specs.Constant.{number, text, constant_of, Proper};
ghost use Rattle.meaning.specs.State.{add_constant};
ghost use Rattle.forward.specs.Forward.{fwd_number};
ghost use Rattle.store.specs.Layout.{constant_by};
ghost use Rattle.store.specs.Store.{Fine};
ghost use Rattle.store.specs.Promise.{a_constant, Leaf};

use crate::layout::{NUMBER, OTHER, TEXT};
use crate::{Scope, Step};
use meaning::Literal;

// The three words of a number, by its 64 bits: kind, high word, low word.
fn number_words(bits: u64) -> (u32, u32, u32)
    ensures { constant_by result.0 result.1 result.2 ≡ number bits }
{
    let high = (bits / 4294967296) as u32;
    let low = (bits % 4294967296) as u32;
    (NUMBER, high, low)
}

// The three words of a literal.
fn words_of(literal: Literal) -> (u32, u32, u32)
    requires { Proper literal }
    ensures { constant_by result.0 result.1 result.2 ≡ constant_of literal }
{
    match literal {
        Literal::Number(x) => number_words(x.to_bits()),
        Literal::NotANumber(bits) => number_words(bits),
        Literal::Text(name) => (TEXT, 0, name as u32),
        Literal::Other(word) => (OTHER, 0, word as u32),
    }
}

// self.constants.push(..): the constant of a literal, whose index is the result.
pub fn add_constant(
    work: &mut [u32],
    step: Step,
    scope: Scope,
    literal: Literal,
    node: usize,
) -> Step
    requires { Fine work.old scope step × Proper literal }
    ensures { Leaf work.old scope step work.new scope result a_constant (fwd_number (add_constant node (constant_of literal))) }
{
    let o = step.outcome;
    let Ok(_) = o else {
        return step;
    };
    let k = step.constants;
    if k == 1024 {
        return step.refuse(meaning::Cause::Constants, node);
    }
    let (kind, high, low) = words_of(literal);
    let at = 3 * k;
    work[at] = kind;
    work[at + 1] = high;
    work[at + 2] = low;
    step.constant_more()
}

// The constant of a name.
pub fn add_name(work: &mut [u32], step: Step, scope: Scope, name: usize, node: usize) -> Step
    requires { Fine work.old scope step × (name < 65536) }
    ensures { Leaf work.old scope step work.new scope result a_constant (fwd_number (add_constant node (text name))) }
{
    add_constant(work, step, scope, Literal::Text(name as u16), node)
}
