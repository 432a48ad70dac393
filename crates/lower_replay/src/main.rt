// Replays the fixed answers of standard input, whose layout README.md has: each tree is built, the work area and the output are filled
// with noise, the tree is lowered, and all that is due is compared. A line is written for the first case that differs, then one for each number.
#![tactic(auto)]

mod file;
mod judge;

use judge::Difference;
use std::alloc::AllocError;

// Words of the work area, and bytes of the output.
const WORK: usize = 536576;

const ROOM: usize = 294998;

fn main(rt: HostRuntime) -> Result<(), AllocError> {
    let text = programs::read_front(rt.alloc(), rt.reader(), file::FILE_ROOM)?;
    replay(&rt, text.as_slice())
}

// Where the next case is read; nowhere where the sizes are wrong.
fn onto(next: usize, judged: Result<(), Difference>) -> usize {
    match judged {
        Err(Difference::Sizes) => file::FILE_ROOM,
        _ => next,
    }
}

// What cannot be written is missed.
fn replay(rt: &HostRuntime, text: &[u8]) -> Result<(), AllocError> {
    let mut work = vec![in rt.alloc(); 0u32; WORK]?;
    let mut out = vec![in rt.alloc(); 0u8; ROOM]?;
    let mut tree = vec![in rt.alloc(); 0u8; file::TREE_ROOM]?;
    let mut agreed = [0u64; 22];
    let count = file::long(text, 0);
    let mut at = 16;
    let mut cases = 0;
    let mut differences = 0u64;
    for k in 0..count {
        if text.len() <= at {
            break;
        }
        let c = file::case_at(text, at);
        let judged = judge::ask(
            text,
            c,
            tree.as_mut_slice(),
            work.as_mut_slice(),
            out.as_mut_slice(),
        );
        match judged {
            Ok(()) => {
                if let Some(n) = agreed.get_mut(c.number) {
                    *n = n.saturating_add(1);
                }
            }
            Err(difference) => {
                if differences == 0 {
                    let _ = println!(rt; "case {k} differs: {difference}");
                }
                differences = differences.saturating_add(1);
            }
        }
        at = onto(c.next, judged);
        cases = k + 1;
    }
    if cases != count || at != text.len() {
        let _ = rt.println("the file does not end with its last case");
    }
    for (number, n) in agreed.iter().enumerate() {
        let _ = println!(rt; "{number}: {n}");
    }
    let _ = println!(rt; "{cases} cases, {differences} differences");
    Ok(())
}
