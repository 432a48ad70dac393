// The path over the instructions of a prototype, as they lie in its image: the loop. What a turn asks and does stands in turn.rt.
ghost use Rattle.std.specs.Prelude.{◌≡◌, ◌≤◌, length, replicate};
ghost use Rattle.meaning.specs.Paths.{start, path, visits};
ghost use Rattle.reader.specs.Laid.{code_in};
ghost use Rattle.walk.specs.Route.{Told};

use crate::code::Code;
use crate::handlers::Handlers;
use crate::lent::Recorded;
use crate::turn::{ending, goal, onward};
use meaning::Ending;

// The steps taken, the index where it stood, and how it ended.
#[derive(Clone, Copy)]
pub(crate) struct Walked {
    pub steps: u64,
    pub stood: usize,
    pub ended: Ending,
}

// The walk over a prototype's instructions, from the first on. Every byte of `visited` is zero before.
pub(crate) fn walk_code(code: &Code, run: &Recorded, visited: &mut [u8]) -> Walked
    requires { (code.now.count ≤ length visited.old) × (visited.old ≡ replicate (length visited.old) 0) }
    ensures told { Told (path run.now.budget (code_in code.now.part.now code.now.tag code.now.span code.now.at code.now.count) run.now.strikes.now (start run.now.decisions.now)) run.now.budget result }
    ensures visited { visited.new ≡ visits (path run.now.budget (code_in code.now.part.now code.now.tag code.now.span code.now.at code.now.count) run.now.strikes.now (start run.now.decisions.now)) (length visited.old) }
{
    let mut handlers = Handlers::new();
    // stays: i, k and m count no turns. A turn moves k and m on or not and i anywhere, and the definition's point is told by them (`Walking`).
    let mut i = 0;
    let mut k = 0;
    let mut m = 0;
    let mut steps: u64 = 0;
    visited[0] = 1;
    loop {
        let o = code.opcode(i);
        let struck = run.is_struck(m, steps);
        if let Some(ended) = ending(o, struck, run, k, steps, &handlers) {
            return Walked {
                steps,
                stood: i,
                ended,
            };
        }
        let w = code.operand(i);
        let decided = run.decision(o, struck, k);
        let next = onward(o, w, i, usize::from(decided.unwrap_or(0)));
        let j = goal(struck, &handlers, next);
        handlers.step(o, struck, i + w);
        k += usize::from(decided.is_some());
        m += usize::from(struck);
        steps += 1;
        visited[j] = 1;
        i = j;
    }
}
