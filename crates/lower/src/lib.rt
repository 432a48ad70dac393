// The public call: a tree is checked, lowered and written as an image; afterwards the work area is zero, and so is the output behind the image.
#![tactic(auto)]

ghost use Rattle.std.specs.Prelude.{◌≡◌, ◌++◌, ◌-◌, ◌≤◌, length, take, replicate, Ok};
ghost use Rattle.meaning.specs.Fields.{fields};
ghost use Rattle.meaning.specs.Grammar.{wide_marks};
ghost use Rattle.meaning.specs.At.{extra};
ghost use Rattle.meaning.specs.Check.{checked};
ghost use Rattle.meaning.specs.Answer.{finished, reply, output, work_area};
ghost use Rattle.nodes.specs.Offsets.{Offsets, Readable};
ghost use Rattle.image.specs.Finish.{Ending};
ghost use Rattle.lower.specs.Told.{counted, Counted, Countable};

use meaning::{Refusal, Reply};
use store::Scope;

// stays: tree, work area and output are lent one by one by C's call, and the crates below take them so.

// 1 where the last node says that marks have four bytes, else 0.
fn width_of(tree: &[u8], work: &[u32], n: usize) -> usize
    requires { Readable tree.now work.now (n - 1) × (n ≡ length (fields tree.now)) × (1 ≤ n) }
    ensures { result ≡ extra (wide_marks (fields tree.now)) }
{
    usize::from(nodes::tag_of(tree, work, n - 1) == 0x3E)
}

// The main function's statements, its prototype, the constants: of a tree that the check has accepted, and whose offsets it has noted.
fn lower_checked(
    tree: &[u8],
    work: &mut [u32],
    out: &mut [u8],
    n: usize,
    mode: u64,
) -> Result<usize, Refusal>
    requires { (checked mode tree.now (length work.old) ≡ Ok n) × Offsets tree.now work.old }
    ensures { Ending (finished mode tree.now (length work.old) (length out.old)) out.new result × Counted tree.now work.new result }
{
    let first = store::begin(work, n);
    let wide = width_of(tree, work, n);
    let main = Scope::main(mode as usize, wide, n);
    let last = n - 1;
    let count = nodes::count_of(tree, work, last, 0);
    let rowed = cycle::row(tree, work, out, first, main, last, 0, count, 0);
    let ended = code::end_program(work, out, rowed, main, last);
    image::finish(work, out, ended, last)
}

// The outcome, with the image at the front of the output, and the visits counted. The words and the bytes behind the image are left as they were used.
fn lowered(tree: &[u8], work: &mut [u32], out: &mut [u8], mode: u64) -> Result<usize, Refusal>
    ensures { Ending (finished mode tree.now (length work.old) (length out.old)) out.new result × Counted tree.now work.new result }
{
    let words = work.len();
    let n = tree::check_in(tree, work, words, mode)?;
    lower_checked(tree, work, out, n, mode)
}

// The visits that were counted for an outcome: 0 where it is a refusal.
fn visits_of(work: &[u32], outcome: Result<usize, Refusal>) -> u64
    requires { Countable work.now outcome }
    ensures { result ≡ counted work.now outcome }
{
    let Ok(_) = outcome else {
        return 0;
    };
    store::visits(work) as u64
}

// What documents 01 and 02 say of a mode, a tree, a work area and an output, whatever they hold.
pub fn lower(tree: &[u8], work: &mut [u32], out: &mut [u8], mode: u64) -> Reply
    ensures answered { result ≡ reply tree.now (finished mode tree.now (length work.old) (length out.old)) }
    ensures cleared { work.new ≡ work_area (length work.old) }
    ensures written { out.new ≡ output (length out.old) (finished mode tree.now (length work.old) (length out.old)) }
{
    let outcome = lowered(tree, work, out, mode);
    let answer = values::answer_of(outcome);
    let visits = visits_of(work, outcome);
    work.fill(0);
    out[answer.length as usize..].fill(0);
    // stays: Reply is a record of the definition (meaning/specs/Answer), and has the numbers of C's answer one by one.
    Reply {
        number: answer.number,
        place: answer.place,
        length: answer.length,
        visits: visits,
    }
}
