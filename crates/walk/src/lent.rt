// What a walk is lent: the bytes that it marks, and the recorded run.
ghost use Rattle.std.specs.Prelude.{◌≡◌, true, not, ◌&&◌, cond, ◌-◌, ◌<◌, length, replicate, get_or, eqb, ltb, nat_lt, nat_le};
ghost use Rattle.std.specs.declared.option.Option.TheVariants.{Some, None};
ghost use Rattle.std.specs.List.{find, position, range_with_len};
ghost use Rattle.walk.specs.Code.{Decisions, Rising};

use crate::turn::TEST;

// The decisions in order, the numbers of the steps at which a failure strikes, and how many steps there may be.
#[derive(Clone, Copy)]
pub(crate) struct Recorded<'a> {
    pub decisions: &'a [u8],
    pub strikes: &'a [u64],
    pub budget: u64,
    ghost fair: { Decisions decisions.now },
    ghost rising: { Rising strikes.now },
}

impl Recorded<'_> {
    // A failure strikes at this step, m strikes being behind.
    pub(crate) fn is_struck(&self, m: usize, steps: u64) -> bool
        ensures { result ≡ (ltb m (length self.now.strikes.now) && eqb (get_or self.now.strikes.now m 0) steps) }
    {
        m < self.strikes.len() && self.strikes[m] == steps
    }

    // The decision that opcode o asks for, k being behind. A struck step asks for none.
    pub(crate) fn decision(&self, o: u8, struck: bool, k: usize) -> Option<u8>
        requires { (not struck && eqb o 4) ≡ true → k < length self.now.decisions.now }
        ensures { result ≡ cond (not struck && eqb o 4) (Some (get_or self.now.decisions.now k 0)) None }
    {
        if struck | (o != TEST) {
            return None;
        }
        Some(self.decisions[k])
    }
}

// Every byte is zero.
pub(crate) fn clear(bytes: &mut [u8])
    ensures { bytes.new ≡ replicate (length bytes.old) 0 }
{
    bytes.fill(0);
}

// The first decision above 1.
pub(crate) fn first_over(decisions: &[u8]) -> Option<usize>
    ensures { result ≡ position (λ decision. nat_lt 1 decision) decisions.now }
{
    decisions.iter().position(|decision| 1 < *decision)
}

// The first strike that is not above the one before it.
pub(crate) fn first_fallen(strikes: &[u64]) -> Option<usize>
    ensures { result ≡ find (λ i. nat_le (get_or strikes.now i 0) (get_or strikes.now (i - 1) 0)) (range_with_len 1 (length strikes.now - 1)) }
{
    (1..strikes.len()).find(|i| strikes[*i] <= strikes[*i - 1])
}
