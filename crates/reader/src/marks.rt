// Which instructions of a prototype are entered by a step: a byte for each.
ghost use Rattle.std.specs.Prelude.{◌≡◌, ◌+◌, ◌*◌, ◌<◌, ◌≤◌, length};
ghost use Rattle.meaning.specs.Images.{inst_size};
ghost use Rattle.meaning.specs.Steps.{target};
ghost use Rattle.reader.specs.Laid.{code_in};
ghost use Rattle.reader.specs.Lens.{lens_code};
ghost use Rattle.reader.specs.Marks.{seen_opcode, first_lead, second_lead, mark, Entered};
ghost use Rattle.reader.specs.Spots.{spot_of};

use crate::order::inst_size;
use fields::word;

// Marks the place that a step leads to, where it is one of them.
fn mark(marks: &mut [u8], lead: Option<usize>)
    ensures { marks.new ≡ mark marks.old (spot_of lead) }
{
    if let Some(j) = lead {
        if j < marks.len() {
            marks[j] = 1;
        }
    }
}

// stays: opcodes by number, as facts.rt says of them; specs/Marks has the same numbers.
// The opcode that is asked for its steps. A Jmp out of the prototype enters nothing, replaced or not.
fn seen_opcode(o: u8, a: u8, mend: bool) -> u8
    ensures { result ≡ seen_opcode mend o a }
{
    if mend & ((o == 3) & ((a == 1) | (a == 2))) {
        return 20;
    }
    o
}

// Where a jump by w, which has a sign, leads from index i.
fn target(i: usize, w: usize) -> Option<usize>
    requires { (w < 65536) × (i < 65536) }
    ensures { spot_of result ≡ target i w }
{
    if w < 32768 {
        return Some(i + w);
    }
    (i + w).checked_sub(65536)
}

// Where the first step of an opcode at index i leads.
fn first_lead(o: u8, w: usize, i: usize) -> Option<usize>
    requires { (w < 65536) × (i < 65536) }
    ensures { spot_of result ≡ first_lead o w i }
{
    match o {
        3 => target(i, w),
        20 => None,
        _ => Some(i + 1),
    }
}

// The second.
fn second_lead(o: u8, w: usize, i: usize) -> Option<usize>
    requires { (w < 65536) × (i < 65536) }
    ensures { spot_of result ≡ second_lead o w i }
{
    match o {
        4 => Some(i + 2),
        48 => Some(i + w),
        _ => None,
    }
}

// A byte is 1 exactly where a step of one of so many instructions, as they are seen, leads there, else 0. They lie from `at` on.
pub(crate) fn mark_entered(t: &[u8], tag: u8, at: usize, marks: &mut [u8], mend: bool)
    requires { (length marks.old < 65536) × (at + length marks.old * (3 + inst_size tag) ≤ length t.now) }
    ensures { Entered (lens_code mend (code_in t.now tag (3 + inst_size tag) at (length marks.old))) (length marks.old) marks.new }
{
    let span = 3 + inst_size(tag);
    marks.fill(0);
    for i in 0..marks.len() {
        let base = at + i * span;
        let o = seen_opcode(t[base + 3], t[base + 4], mend);
        let w = word(t, base + 5);
        mark(marks, first_lead(o, w, i));
        mark(marks, second_lead(o, w, i));
    }
}
