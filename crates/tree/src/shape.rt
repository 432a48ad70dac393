// One walk over the fields: how many there are, refusal 3, and on the way who has whom as a child and where each node starts; another where the last
// tag says that marks have four bytes. The scratch has, from its front on, a word for each node below the one in hand: its tag, and 256 times the node
// that has it as a child plus one, 0 where none has, 65,535 where it is a child more than once; and from its end on the offset of each node.
// stays: a tag and an owner are one word, since the scratch that is lent has one of 32 bits for each node (`used`, specs/Used, which `check_in` promises).
// stays: the scratch and the number of the node in hand go into six functions side by side: a struct of both would be made anew for each node, with the same two facts to prove.
ghost use Rattle.std.specs.Prelude.{◌≡◌, true, cond, suc, min, ◌-◌, ◌<◌, ◌≤◌, length, set, ltb};
ghost use Rattle.meaning.specs.Fields.{fields};
ghost use Rattle.meaning.specs.Grammar.{names, lawful, wide_marks};
ghost use Rattle.tree.specs.Rows.{number, fits_row};
ghost use Rattle.tree.specs.Starts.{Right};
ghost use Rattle.tree.specs.Scratch.{tags_in, note, note_word, note_row, last_tag, Beyond, Found, Apart};
ghost use Rattle.tree.specs.Used.{few, with_offsets};

use crate::rows::{Kind, Place, ROWS};
use crate::starts::{Form, Start, start_of};
use fields::{is_whole, payload, span_of, word};

// Notes that node i has w as a child.
fn note(scratch: &mut [u32], i: usize, w: usize)
    requires { (i < 32768) × (w < length scratch.old) }
    ensures { scratch.new ≡ note scratch.old i w }
{
    let v = scratch[w];
    if v < 256 {
        scratch[w] = v + 256 * (i as u32 + 1);
    } else {
        scratch[w] = v % 256 + 16776960;
    }
}

// The word w, which names a child, is lawful in node i. That is noted.
#[inline]
fn child(scratch: &mut [u32], i: usize, kind: Kind, w: usize) -> bool
    requires { (i < 32768) × (i ≤ length scratch.old) × (names (number kind) w ≡ true) }
    ensures lawful { result ≡ lawful (tags_in scratch.old) i (number kind) w }
    ensures noted { scratch.new ≡ cond result (note_word scratch.old i (number kind) w) scratch.old }
{
    if i <= w {
        return false;
    }
    let is_lawful = kind.admits(scratch[w] as usize % 256);
    if is_lawful {
        note(scratch, i, w);
    }
    is_lawful
}

// The word w of this kind is lawful in node i. If it names a child, that is noted.
#[inline]
fn admit(scratch: &mut [u32], i: usize, kind: Kind, w: usize) -> bool
    requires { (i < 32768) × (i ≤ length scratch.old) × (w < 65536) }
    ensures lawful { result ≡ lawful (tags_in scratch.old) i (number kind) w }
    ensures noted { scratch.new ≡ cond result (note_word scratch.old i (number kind) w) scratch.old }
{
    // most words are of these three kinds; a match over all takes a jump by table
    if kind == Kind::Any {
        return true;
    }
    if kind == Kind::Expr {
        return child(scratch, i, Kind::Expr, w);
    }
    if kind == Kind::Stmt {
        return child(scratch, i, Kind::Stmt, w);
    }
    if kind.is_absent(w) {
        return true;
    }
    if kind.is_child() {
        return child(scratch, i, kind, w);
    }
    kind.admits(w)
}

// The payload p of node i fits from a row on.
fn fits_from(scratch: &mut [u32], i: usize, first: usize, p: &[u8]) -> bool
    requires { (i < 32768) × (i ≤ length scratch.old) × (first < 122) }
    ensures fits { result ≡ fits_row (lawful (tags_in scratch.old) i) first 0 p.now }
    ensures noted { scratch.new ≡ note_row (lawful (tags_in scratch.old) i) scratch.old i first 0 p.now }
{
    let mut place = Place {
        row: first,
        left: 0,
    };
    let mut q = p;
    while let [high, low, rest @ ..] = q {
        let w = usize::from(*high) * 256 + usize::from(*low);
        let row = &ROWS[place.row];
        if !admit(scratch, i, row.kind, w) {
            return false;
        }
        place = row.after(place.left, w);
        q = rest;
    }
    q.is_empty() && ROWS[place.row].ends
}

// The payload p of node i fits, by the form of a start at this row: it is as long as the form says.
fn fits_form(scratch: &mut [u32], i: usize, start: &Start, form: &Form, p: &[u8]) -> bool
    requires { (i < 32768) × (i ≤ length scratch.old) × Right start.now × (start.now.form ≡ Some form.now) × (length p.now ≡ form.now.size) }
    ensures fits { result ≡ fits_row (lawful (tags_in scratch.old) i) start.now.row 0 p.now }
    ensures noted { scratch.new ≡ note_row (lawful (tags_in scratch.old) i) scratch.old i start.now.row 0 p.now }
{
    let w = word(p, 0);
    if w < form.low || form.high < w {
        return false;
    }
    if form.children == 0 {
        return true;
    }
    if form.children == 2 && !child(scratch, i, Kind::Expr, word(p, p.len() - 4)) {
        return false;
    }
    child(scratch, i, Kind::Expr, word(p, p.len() - 2))
}

// The payload p of node i fits: by the start's form where it is as long, else from the start's row on.
fn fits(scratch: &mut [u32], i: usize, start: &Start, p: &[u8]) -> bool
    requires { (i < 32768) × (i ≤ length scratch.old) × Right start.now }
    ensures fits { result ≡ fits_row (lawful (tags_in scratch.old) i) start.now.row 0 p.now }
    ensures noted { scratch.new ≡ note_row (lawful (tags_in scratch.old) i) scratch.old i start.now.row 0 p.now }
{
    match &start.form {
        Some(form) if p.len() == form.size => fits_form(scratch, i, start, form, p),
        _ => fits_from(scratch, i, start.row, p),
    }
}

// Notes where node i starts, if it is one of the first `notes`: node 0 in the last word, node 1 in the one before it.
fn note_offset(scratch: &mut [u32], notes: usize, i: usize, at: usize)
    requires { (notes ≤ length scratch.old) × (i < notes → at < 4294967296) }
    ensures { scratch.new ≡ cond (ltb i notes) (set scratch.old (length scratch.old - suc i) at) scratch.old }
{
    if i < notes {
        let place = scratch.len() - 1 - i;
        scratch[place] = at as u32;
    }
}

// What a walk over the fields finds: how many whole ones there are, the last one's tag, how many bytes stand after them, and the lowest one with a
// wrong shape among those that were judged.
#[derive(Clone, Copy)]
pub(crate) struct Walked {
    pub(crate) count: usize,
    pub(crate) last: u8,
    pub(crate) after: usize,
    pub(crate) wrong: Option<usize>,
}

// One walk over the file, by the width of marks: the first `limit` nodes are judged, and the offsets of the first `notes` are noted.
fn walk_by(scratch: &mut [u32], tree: &[u8], limit: usize, notes: usize, wide: bool) -> Walked
    requires { Apart limit notes scratch.old }
    ensures count { result.count ≡ length (fields tree.now) }
    ensures found { few result.count ≤ limit → Found wide tree.now scratch.new result.count result.after result.wrong }
    ensures last { result.last ≡ last_tag (fields tree.now) }
    ensures beyond { Beyond (min result.count limit) (with_offsets tree.now (min result.count notes) scratch.old) scratch.new }
{
    let mut t = tree;
    // from a wrong node on, and behind the limit, fields are only counted: an end below the limit is the wrong node, so that a turn keeps one number for both
    let mut end = limit;
    let mut i: usize = 0;
    let mut last: u8 = 0;
    // stays: tried by `Fields`, with a count of the bytes that are passed: the check took 17.1 ns a node in place of the 15.9 that it took before.
    while is_whole(t) {
        let k = span_of(t);
        last = t[0];
        // taken before a word is stored: what was read of the header need not be read again
        let p = payload(t);
        note_offset(scratch, notes, i, tree.len() - t.len());
        if i < end {
            // the last field is the one that ends the file
            let start = start_of(wide, last, k == t.len());
            if !fits(scratch, i, start, p) {
                end = i;
            }
            scratch[i] = last as u32;
        }
        t = &t[k..];
        i = i + 1;
    }
    Walked {
        count: i,
        last: last,
        after: t.len(),
        wrong: (end < limit).then_some(end),
    }
}

// The same, marks having as many bytes as the tree says: its last tag is known after a walk, and where it is 3E the file is walked again, the offsets
// standing already.
pub(crate) fn walk(scratch: &mut [u32], tree: &[u8], limit: usize, notes: usize) -> Walked
    requires { Apart limit notes scratch.old }
    ensures count { result.count ≡ length (fields tree.now) }
    ensures found { few result.count ≤ limit → Found (wide_marks (fields tree.now)) tree.now scratch.new result.count result.after result.wrong }
    ensures beyond { Beyond (min result.count limit) (with_offsets tree.now (min result.count notes) scratch.old) scratch.new }
{
    let narrow = walk_by(scratch, tree, limit, notes, false);
    if narrow.last != 0x3E {
        return narrow;
    }
    walk_by(scratch, tree, limit, 0, true)
}
