// What the cases of the shared enums are worth: literals read and tested; outcomes told as numbers.
#![tactic(auto)]

mod answer;
mod literal;

pub use answer::{answer_of, cause_number};
pub use literal::{bits_at, literal_of, number_of, small};
