// Refusal 27: what mode 1 makes of mode 0's answer. Mode 0 has no part in it, so that its check is what it was.
ghost use Rattle.std.specs.Prelude.{◌≡◌};
ghost use Rattle.meaning.specs.Fields.{fields};
ghost use Rattle.tree.specs.Retired.{retired_over};

use fields::Fields;
use meaning::{Cause, Refusal};

// 27 at the lowest class, behind 1 to 3 and before every other answer.
pub(crate) fn over(tree: &[u8], judged: Result<usize, Refusal>) -> Result<usize, Refusal>
    ensures { result ≡ retired_over (fields tree.now) judged }
{
    // stays: tried as a match on the causes; a default arm tells nothing of the cause, so `returns-in_default` did not close.
    let number = values::answer_of(judged).number;
    if (0 < number) & (number < 4) {
        return judged;
    }
    let mut i: usize = 0;
    for field in Fields::new(tree) {
        if field.tag == 0x1D {
            return Err(Refusal {
                cause: Cause::Retired,
                place: i,
            });
        }
        i += 1;
    }
    judged
}
