// How a step is made, of nothing or of the one before: no other file writes one down.
ghost use Rattle.std.specs.Prelude.{◌≡◌, ◌≤◌};
ghost use Rattle.store.specs.Store.{first_step, refused_step, advanced, with_result, constant_more, global_more, prototype_more};

use crate::Step;
use meaning::{Cause, Refusal};

// The same outcome, made anew: a copy is moved in odd pieces, and the next function waits for them.
// stays: tried without it: 109 stores at odd addresses in place of 15 (docs/DECISIONS), and a call took 1 to 3 % longer than at the first line of docs/DESIGN-PASS.
fn again(o: Result<usize, Refusal>) -> Result<usize, Refusal>
    ensures { result ≡ o }
{
    match o {
        Ok(bytes) => Ok(bytes),
        Err(Refusal { cause, place }) => Err(Refusal { cause, place }),
    }
}

impl Step {
    // Where the lowering starts.
    pub(crate) fn first() -> Step
        ensures { result ≡ first_step }
    {
        Step {
            outcome: Ok(0),
            pc: 0,
            constants: 0,
            globals: 0,
            functions: 0,
            result: 0,
        }
    }

    // A step that is refused stays so; any other is now.
    pub fn refuse(self, cause: Cause, node: usize) -> Step
        ensures { result ≡ refused_step self cause node }
    {
        let Ok(_) = self.outcome else {
            return self;
        };
        Step {
            outcome: Err(Refusal { cause, place: node }),
            result: 0,
            ..self
        }
    }

    // The step with so many instructions and this result.
    pub fn advance(self, pc: usize, res: u32) -> Step
        ensures { result ≡ advanced self pc res }
    {
        Step {
            outcome: again(self.outcome),
            pc,
            result: res,
            ..self
        }
    }

    // The result register.
    pub fn settle(self, res: u32) -> Step
        ensures { result ≡ with_result self res }
    {
        self.advance(self.pc, res)
    }

    // One constant more; its index is the result.
    pub(crate) fn constant_more(self) -> Step
        requires { self.constants ≤ 1024 }
        ensures { result ≡ constant_more self }
    {
        Step {
            outcome: again(self.outcome),
            constants: self.constants + 1,
            result: self.constants as u32,
            ..self
        }
    }

    // One global more.
    pub(crate) fn global_more(self) -> Step
        requires { self.globals ≤ 1025 }
        ensures { result ≡ global_more self }
    {
        Step {
            outcome: again(self.outcome),
            globals: self.globals + 1,
            ..self
        }
    }

    // One prototype more, whose index is the result: its bytes end at `end`, and its code, from `first` on, is cut off.
    pub fn prototype_more(self, first: usize, end: usize) -> Step
        requires { self.functions ≤ 256 }
        ensures { result ≡ prototype_more self first end }
    {
        Step {
            outcome: Ok(end),
            pc: first,
            functions: self.functions + 1,
            result: self.functions as u32,
            ..self
        }
    }
}
