// What a turn of the walk asks and does, in numbers: o is the opcode where it stands, `struck` whether a failure strikes at this step.
// stays: `struck` is a fact of the step, which each of these asks as the definition does. An enum of two kinds of step would spell the same bool otherwise.
ghost use Rattle.std.specs.Prelude.{◌≡◌, Bool, true, not, ◌&&◌, ◌||◌, cond, ℕ, ◌+◌, ◌-◌, ◌<◌, ◌≤◌, length, get_or, eqb, ltb};
ghost use Rattle.std.specs.declared.option.Option.TheVariants.{Some, None};
ghost use Rattle.walk.specs.Turn.{onward, ending};

use crate::handlers::Handlers;
use crate::lent::Recorded;
use meaning::Ending;

// The opcodes that are more than a step to the next instruction.
// stays: numbers: this crate does not use `instruction`, and all opcodes but these five are plain steps, for which an enum of its own would need a sixth case.
pub(crate) const JMP: u8 = 3;

pub(crate) const TEST: u8 = 4;

pub(crate) const RETURN: u8 = 20;

pub(crate) const REGISTER: u8 = 48;

pub(crate) const DEREGISTER: u8 = 49;

// How the walk ends before this step, in 02's order, or else none: at a Return; where a decision is asked for and none is left; out of budget; where a failure strikes
// and no handler is registered; where one is to be registered and there is no room.
pub(crate) fn ending(
    o: u8,
    struck: bool,
    run: &Recorded,
    k: usize,
    steps: u64,
    handlers: &Handlers,
) -> Option<Ending>
    ensures { result ≡ ending o struck (ltb k (length run.now.decisions.now)) (ltb steps run.now.budget) handlers.now.count }
{
    if o == RETURN {
        return Some(Ending::AtReturn);
    }
    if !struck & ((o == TEST) & (run.decisions.len() <= k)) {
        return Some(Ending::NoDecision);
    }
    if run.budget <= steps {
        return Some(Ending::NoBudget);
    }
    if struck & (handlers.count == 0) {
        return Some(Ending::Failed);
    }
    if !struck & ((o == REGISTER) & (256 <= handlers.count)) {
        return Some(Ending::Handlers);
    }
    None
}

// Where opcode o at index i goes on to, with w in b and c, and the decision d.
pub(crate) fn onward(o: u8, w: usize, i: usize, d: usize) -> usize
    requires { (w < 65536) × (i < 65536) × (d < 256) × (32768 ≤ w → o ≡ 3 → 65536 ≤ i + w) }
    ensures { result ≡ onward o w i d }
{
    match o {
        TEST => i + 1 + d,
        JMP if w < 32768 => i + w,
        JMP => i + w - 65536,
        _ => i + 1,
    }
}

// A failure goes to the handler registered last; else it goes on to j.
pub(crate) fn goal(struck: bool, handlers: &Handlers, j: usize) -> usize
    requires { struck ≡ true → 0 < handlers.now.count }
    ensures { result ≡ cond struck (get_or handlers.now.places (handlers.now.count - 1) 0) j }
{
    // by a branch: a choice between both would put the handlers between one step and the next
    if struck {
        handlers.last().unwrap_or(j)
    } else {
        j
    }
}
