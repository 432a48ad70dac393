// The handlers that a walk has registered.
ghost use Rattle.std.specs.Prelude.{◌≡◌, true, not, ◌&&◌, cond, ◌+◌, ◌-◌, ◌<◌, ◌≤◌, length, get_or, set, eqb, ltb};
ghost use Rattle.std.specs.declared.option.Option.TheVariants.{Some, None};
ghost use Rattle.walk.specs.Turn.{registered_after};

use crate::turn::{DEREGISTER, REGISTER};

// The first `count` of the places: the last of them is entered first.
// stays: there is no heap in the library, so they are an array with their number beside it, 256 at most as the definition has it.
#[derive(Drop)]
pub(crate) struct Handlers {
    pub places: [usize; 256],
    pub count: usize,
    ghost few: { count ≤ 256 },
}

impl Handlers {
    pub(crate) fn new() -> Handlers
        ensures { (result.count ≡ 0) × (length result.places ≡ 256) }
    {
        Handlers {
            places: [0; 256],
            count: 0,
        }
    }

    // The one registered last.
    pub(crate) fn last(&self) -> Option<usize>
        ensures { result ≡ cond (ltb 0 self.now.count) (Some (get_or self.now.places (self.now.count - 1) 0)) None }
    {
        if self.count == 0 {
            return None;
        }
        Some(self.places[self.count - 1])
    }

    // What a step of opcode o registers or takes off. A struck step registers none and takes none off.
    pub(crate) fn step(&mut self, o: u8, struck: bool, place: usize)
        requires { (not struck && eqb o 48) ≡ true → self.old.count < 256 }
        ensures { (self.new.places ≡ cond (not struck && eqb o 48) (set self.old.places self.old.count place) self.old.places) × (self.new.count ≡ registered_after o struck self.old.count) }
    {
        if struck {
            return;
        }
        if o == REGISTER {
            self.places[self.count] = place;
            self.count += 1;
        } else if o == DEREGISTER {
            self.count = self.count.saturating_sub(1);
        }
    }
}
