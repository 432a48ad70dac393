// Tree files: fields, shapes, owners, and refusals 1 to 6 (01, "Tree file" and "Outcome", and 02, E5); then 21 and 27 (02, E2 and E11).
#![tactic(auto)]

mod owners;
mod retired;
mod rows;
mod shape;
mod starts;

ghost use Rattle.std.specs.Prelude.{◌≡◌, ◌≤◌, length};
ghost use Rattle.meaning.specs.Fields.{fields};
ghost use Rattle.meaning.specs.Grammar.{wide_marks};
ghost use Rattle.meaning.specs.Check.{checked_tree, checked};
ghost use Rattle.tree.specs.Used.{few, scratch_after};
ghost use Rattle.tree.specs.Scratch.{Beyond, Found};

use meaning::{Cause, Refusal};
use shape::Walked;

// A tree has no more nodes.
const MOST: usize = 32768;

// Refusals 1 to 6, in that order, or the number of nodes, as in mode 0, from what a walk found and left in the scratch. The contract alone reads the tree.
fn judged(
    tree: &[u8],
    scratch: &mut [u32],
    walked: Walked,
    work_len: usize,
) -> Result<usize, Refusal>
    requires { Found (wide_marks (fields tree.now)) tree.now scratch.old walked.count walked.after walked.wrong }
    ensures outcome { result ≡ checked_tree 0 tree.now work_len }
    ensures beyond { Beyond (few walked.count) scratch.old scratch.new }
{
    let n = walked.count;
    if n == 0 {
        return Err(Refusal {
            cause: Cause::Frame,
            place: n,
        });
    }
    if walked.after != 0 {
        return Err(Refusal {
            cause: Cause::Frame,
            place: n,
        });
    }
    if MOST < n {
        return Err(Refusal {
            cause: Cause::Many,
            place: MOST,
        });
    }
    if let Some(wrong) = walked.wrong {
        return Err(Refusal {
            cause: Cause::Shape,
            place: wrong,
        });
    }
    if let Some(free) = owners::first_unowned(scratch, n - 1) {
        return Err(Refusal {
            cause: Cause::Tree,
            place: free,
        });
    }
    if let Some(deep) = owners::first_deep(scratch, n) {
        return Err(Refusal {
            cause: Cause::Depth,
            place: deep,
        });
    }
    if work_len < 12288 + 16 * n {
        return Err(Refusal {
            cause: Cause::Work,
            place: 0,
        });
    }
    Ok(n)
}

// The same with the walk, in a scratch that nobody reads afterwards: every node is judged, and no offset noted.
fn check_with(tree: &[u8], scratch: &mut [u32], work_len: usize) -> Result<usize, Refusal>
    requires { few (length (fields tree.now)) ≤ length scratch.old }
    ensures { result ≡ checked_tree 0 tree.now work_len }
{
    let limit = scratch.len().min(MOST);
    let walked = shape::walk(scratch, tree, limit, 0);
    judged(tree, scratch, walked, work_len)
}

// stays: an array, since the library has no heap.
// The same in a scratch of its own of N words, which is to be no part of its callers' frames.
#[inline(never)]
fn check_own<const N: usize>(tree: &[u8], work_len: usize) -> Result<usize, Refusal>
    requires room { few (length (fields tree.now)) ≤ N }
    requires size { N ≤ 32768 }
    ensures { result ≡ checked_tree 0 tree.now work_len }
{
    let mut scratch = [0u32; N];
    check_with(tree, &mut scratch, work_len)
}

// The same: a small scratch for a short file, so that few words are made. A field takes three bytes at least.
fn check_alone(tree: &[u8], work_len: usize) -> Result<usize, Refusal>
    ensures { result ≡ checked_tree 0 tree.now work_len }
{
    if tree.len() / 3 <= 4096 {
        check_own::<4096>(tree, work_len)
    } else {
        check_own::<MOST>(tree, work_len)
    }
}

// stays: the mode is C's number, any of 64 bits: 21 tells of those that are none.
// 21, then the same as in mode 0, then what mode 1 has retired.
pub fn check(tree: &[u8], work_len: usize, mode: u64) -> Result<usize, Refusal>
    ensures { result ≡ checked mode tree.now work_len }
{
    if 1 < mode {
        return Err(Refusal {
            cause: Cause::Mode,
            place: 0,
        });
    }
    let judged = check_alone(tree, work_len);
    if mode == 0 {
        return judged;
    }
    retired::over(tree, judged)
}

// The same as in mode 0, in a scratch that is lent: one half of it serves the check, and at the end of the other stand the offsets. A tree of more nodes than
// a half has words is judged in a scratch of the check's own; no work area of that length would be enough for it.
fn check_lent(tree: &[u8], scratch: &mut [u32], work_len: usize) -> Result<usize, Refusal>
    ensures outcome { result ≡ checked_tree 0 tree.now work_len }
    ensures scratch { scratch.new ≡ scratch_after 0 tree.now scratch.old }
{
    let limit = (scratch.len() / 2).min(MOST);
    let walked = shape::walk(scratch, tree, limit, limit);
    let n = walked.count.min(MOST);
    if limit < n {
        scratch[..limit].fill(0);
        return check_alone(tree, work_len);
    }
    let outcome = judged(tree, scratch, walked, work_len);
    scratch[..n].fill(0);
    outcome
}

// What `check` answers. Where the mode is one, the scratch then has the offsets of the nodes at its end, as the lowering reads them.
pub fn check_in(
    tree: &[u8],
    scratch: &mut [u32],
    work_len: usize,
    mode: u64,
) -> Result<usize, Refusal>
    ensures outcome { result ≡ checked mode tree.now work_len }
    ensures scratch { scratch.new ≡ scratch_after mode tree.now scratch.old }
{
    if mode > 1 {
        return check(tree, work_len, mode);
    }
    let judged = check_lent(tree, scratch, work_len);
    if mode == 0 {
        return judged;
    }
    retired::over(tree, judged)
}
