// The constants, which stand after the prototypes, and the end of the image: 18 Room where it does not fit.
ghost use Rattle.std.specs.Prelude.{ℕ, ◌+◌, ◌*◌, ◌<◌, ◌≤◌, ◌≡◌, [], ◌∷◌, length};
ghost use Rattle.meaning.specs.Image.{constant_bytes};
ghost use Rattle.store.specs.Table.{tab};
ghost use Rattle.store.specs.Layout.{constant_at};
ghost use Rattle.writers.specs.Spliced.{Spliced};
ghost use Rattle.writers.specs.Values.{constant_of};
ghost use Rattle.image.specs.Finish.{Finishable, Finishes};

use meaning::{Cause, Refusal};
use store::{NUMBER, Step, TEXT};
use writers::Constant;

// Constant i, by its three words.
fn constant_at(work: &[u32], i: usize) -> Constant
    requires { 3 * i + 3 ≤ length work.now }
    ensures { constant_of result ≡ constant_at work.now i }
{
    let at = 3 * i;
    let low = work[at + 2];
    match work[at] {
        NUMBER => Constant::Number(work[at + 1] as u64 * 4294967296 + low as u64),
        TEXT => Constant::Text(low),
        _ => Constant::Other(low),
    }
}

// Where `count` constants end that start at `at`.
fn constants_end(work: &[u32], at: usize, count: usize) -> usize
    requires { (3 * count ≤ length work.now) × (count ≤ 1024) × (at < 4294967296) }
    ensures { result ≡ at + length (constant_bytes (tab (constant_at work.now) count)) }
{
    let mut end = at;
    for i in 0..count {
        end += constant_at(work, i).size();
    }
    end
}

fn put_constants(work: &[u32], out: &mut [u8], from: usize, count: usize)
    requires { (3 * count ≤ length work.now) × (count ≤ 1024) × (from + length (constant_bytes (tab (constant_at work.now) count)) ≤ length out.old) }
    ensures { Spliced out.old from (constant_bytes (tab (constant_at work.now) count)) out.new }
{
    let mut at = from;
    for i in 0..count {
        let constant = constant_at(work, i);
        writers::put_constant(out, at, constant);
        at += constant.size();
    }
}

// The end of a call: the constants where the image fits, else 18 at the last node. A refusal stays.
pub fn finish(work: &[u32], out: &mut [u8], step: Step, last: usize) -> Result<usize, Refusal>
    requires { Finishable work.now step }
    ensures { Finishes work.now out.old step last out.new result }
{
    let written = step.outcome?;
    let end = constants_end(work, written, step.constants);
    if out.len() < end {
        return Err(Refusal {
            cause: Cause::Room,
            place: last,
        });
    }
    put_constants(work, out, written, step.constants);
    Ok(end)
}
