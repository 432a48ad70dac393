// The words of a node's payload.
ghost use Rattle.std.specs.Prelude.{◌≡◌, not, cond, ◌+◌, ◌*◌, ◌<◌, ◌≤◌, length, eqb};
ghost use Rattle.meaning.specs.Fields.{fields, field_at, words};
ghost use Rattle.meaning.specs.Read.{at, token};
ghost use Rattle.meaning.specs.At.{mark_at, pair_place};
ghost use Rattle.nodes.specs.Nodes.{word_or_absent, unless_absent};
ghost use Rattle.nodes.specs.Offsets.{Readable};

use crate::offsets::payload_of;
use meaning::{NO_MARK, Token};

// "Child 65,535 means absent"
// stays: the word of the file that `child` may read; outside this file it is None. `wide` is 0 or 1, since places are counted by it.
const ABSENT: usize = 65535;

// Word k of a payload: a child's number, a name, an op, a count.
pub fn child(payload: &[u8], k: usize) -> usize
    requires { k < length (words payload.now) }
    ensures { (result ≡ at (words payload.now) k) × (result < 65536) }
{
    fields::word(payload, 2 * k)
}

// How many words a payload has.
pub(crate) fn count(payload: &[u8]) -> usize
    ensures { result ≡ length (words payload.now) }
{
    payload.len() / 2
}

// The words of the payload of a node that has a mark. Where marks are wide, `wide` is 1, the words that a mark takes more; else it is 0.
#[derive(Clone, Copy)]
pub(crate) struct Words<'a> {
    pub payload: &'a [u8],
    pub wide: usize,
    ghost narrow: { wide ≤ 1 },
}

impl<'a> Words<'a> {
    pub(crate) fn of(tree: &'a [u8], work: &[u32], node: usize, wide: usize) -> Words<'a>
        requires { Readable tree.now work.now node × (wide ≤ 1) }
        ensures { (result.payload.now ≡ (field_at (fields tree.now) node).payload) × (result.wide ≡ wide) }
    {
        Words {
            payload: payload_of(tree, work, node),
            wide,
        }
    }

    // Word k, before the mark.
    pub(crate) fn word(&self, k: usize) -> usize
        requires { k < length (words self.now.payload.now) }
        ensures { (result ≡ at (words self.now.payload.now) k) × (result < 65536) }
    {
        child(self.payload, k)
    }

    // Word k, behind the mark.
    pub(crate) fn behind(&self, k: usize) -> usize
        requires { k + self.now.wide < length (words self.now.payload.now) }
        ensures { (result ≡ at (words self.now.payload.now) (k + self.now.wide)) × (result < 65536) }
    {
        child(self.payload, k + self.wide)
    }

    // The same, or none where the payload ends before it.
    pub(crate) fn perhaps(&self, k: usize) -> Option<usize>
        requires { k < 65536 }
        ensures { result ≡ word_or_absent (words self.now.payload.now) (k + self.now.wide) }
    {
        if k + self.wide < count(self.payload) {
            return Some(self.behind(k));
        }
        None
    }

    // The child at word k, behind the mark, or none where that is absent.
    pub(crate) fn present(&self, k: usize) -> Option<usize>
        requires { k + self.now.wide < length (words self.now.payload.now) }
        ensures { result ≡ unless_absent (at (words self.now.payload.now) (k + self.now.wide)) }
    {
        let node = self.behind(k);
        if node == ABSENT { None } else { Some(node) }
    }

    // The mark at word k: it has two bytes, or four where marks are wide.
    // stays: NO_MARK is no Option: an instruction holds it and the image's bytes have it (`no_mark` of the definition).
    pub(crate) fn mark(&self, k: usize) -> u32
        requires { k + self.now.wide < length (words self.now.payload.now) }
        ensures { result ≡ mark_at (not (eqb self.now.wide 0)) (words self.now.payload.now) k }
    {
        let first = self.word(k) as u32;
        if self.wide == 0 {
            if first == 65535 {
                return NO_MARK;
            }
            return first;
        }
        first * 65536 + self.word(k + 1) as u32
    }

    // The name at word k, and its mark behind it.
    pub(crate) fn token(&self, k: usize) -> Token
        requires { k + 1 + self.now.wide < length (words self.now.payload.now) }
        ensures { (result ≡ token (at (words self.now.payload.now) k) (mark_at (not (eqb self.now.wide 0)) (words self.now.payload.now) (k + 1))) × (result.name < 65536) }
    {
        Token {
            name: self.word(k),
            mark: self.mark(k + 1),
        }
    }
}

// The words of the file that n marks take more than n words.
pub(crate) fn more_words(n: usize, wide: usize) -> usize
    ensures { (result ≡ cond (not (eqb wide 0)) n 0) × (result ≤ n) }
{
    if wide == 0 { 0 } else { n }
}

// The name of pair k of those from word `from` on: a pair takes two words, or three where marks are wide.
pub fn pair(payload: &[u8], from: usize, k: usize, wide: usize) -> usize
    requires { (from + pair_place (not (eqb wide 0)) k < length (words payload.now)) × (wide ≤ 1) }
    ensures { (result ≡ at (words payload.now) (from + pair_place (not (eqb wide 0)) k)) × (result < 65536) }
{
    child(payload, from + k * (2 + wide))
}
