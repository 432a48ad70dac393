// What a caller is told of an outcome (01, "Outcome"): number, place and length.
ghost use Rattle.std.specs.Prelude.{◌≡◌};
ghost use Rattle.meaning.specs.Answer.{cause_number, answer};

use meaning::{Answer, Cause, Refusal};

// The numbers of the table of causes.
pub fn cause_number(c: Cause) -> u64
    ensures { result ≡ cause_number c }
{
    c as u64
}

pub fn answer_of(o: Result<usize, Refusal>) -> Answer
    ensures { result ≡ answer o }
{
    match o {
        Ok(n) => Answer {
            number: 0,
            place: 0,
            length: n as u64,
        },
        Err(Refusal { cause: c, place }) => Answer {
            number: cause_number(c),
            place: place as u64,
            length: 0,
        },
    }
}
