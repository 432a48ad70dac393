// The walk of a prototype by recorded decisions and failures (document 02, E4 and E8): which instructions a run visited, and how it ended.
#![tactic(auto)]

mod code;
mod handlers;
mod lent;
mod route;
mod turn;

ghost use Rattle.std.specs.Prelude.{◌≡◌, ◌≤◌, length, replicate};
ghost use Rattle.std.proofs.Math.Option.{none};
ghost use Rattle.meaning.specs.Fields.{fields};
ghost use Rattle.meaning.specs.Answer.{cause_number};
ghost use Rattle.meaning.specs.Images.{image_of};
ghost use Rattle.meaning.specs.Reader.{broken, image_tag};
ghost use Rattle.meaning.specs.Walker.{asked, walk_in, walk_image, ending_number, walk_answer, lent_bytes};
ghost use Rattle.reader.specs.Laid.{Ordered};

use code::Code;
use lent::Recorded;
use meaning::{Cause, Ending, Refusal, WalkAnswer};
use route::Walked;

// A refusal has 0 for the three last numbers.
fn refusal(cause: Cause, place: usize) -> WalkAnswer
    ensures { result ≡ record { number = cause_number cause; place = place; steps = 0; index = 0; ending = 0 } }
{
    WalkAnswer {
        number: values::cause_number(cause),
        place: place as u64,
        steps: 0,
        index: 0,
        ending: 0,
    }
}

fn ending_number(e: Ending) -> u64
    ensures { result ≡ ending_number e }
{
    e as u64
}

fn arrival(w: Walked) -> WalkAnswer
    ensures { result ≡ record { number = 0; place = 0; steps = w.steps; index = w.stood; ending = ending_number w.ended } }
{
    let e = w.ended;
    WalkAnswer {
        number: 0,
        place: 0,
        steps: w.steps,
        index: w.stood as u64,
        ending: ending_number(e),
    }
}

// The walk in an image that is taken: 22 Prototype, 23 Decision, 25 Order, 29 Visits. Every lent byte is zero before.
fn walk_taken(
    image: &[u8],
    tag: u8,
    q: usize,
    decisions: &[u8],
    strikes: &[u64],
    budget: u64,
    visited: &mut [u8],
) -> WalkAnswer
    requires { Ordered image.now tag × (broken (image_of tag (fields image.now)) ≡ none) × (visited.old ≡ replicate (length visited.old) 0) }
    ensures answer { result ≡ walk_answer (walk_in (image_of tag (fields image.now)) q (asked decisions.now strikes.now «budget» (length visited.old))) }
    ensures visited { visited.new ≡ lent_bytes (walk_in (image_of tag (fields image.now)) q (asked decisions.now strikes.now «budget» (length visited.old))) (length visited.old) }
    ensures within { result.steps ≤ «budget» }
{
    let part = reader::prototype(image, tag, q);
    if !reader::heads(part) {
        return refusal(Cause::Prototype, 0);
    }
    if let Some(over) = lent::first_over(decisions) {
        return refusal(Cause::Decision, over);
    }
    if let Some(fallen) = lent::first_fallen(strikes) {
        return refusal(Cause::Order, fallen);
    }
    let count = fields::word(part, 11);
    if visited.len() < count {
        return refusal(Cause::Visits, 0);
    }
    let code = Code {
        part,
        tag,
        span: 3 + reader::inst_size(tag),
        at: 13 + fields::word(part, 9) * 5,
        count,
    };
    let run = Recorded {
        decisions,
        strikes,
        budget,
    };
    arrival(route::walk_code(&code, &run, visited))
}

// The walk of a prototype, `budget` steps at most, a failure striking at each step whose number is among `strikes`: a lent byte is 1 exactly where an instruction was visited, whatever it was before.
// stays: the parameters stand one by one, as in C's call of it.
pub fn walk(
    image: &[u8],
    prototype: u64,
    decisions: &[u8],
    strikes: &[u64],
    budget: u64,
    visited: &mut [u8],
) -> WalkAnswer
    ensures answer { result ≡ walk_answer (walk_image (image_tag image.now) image.now «prototype» decisions.now strikes.now «budget» (length visited.old)) }
    ensures visited { visited.new ≡ lent_bytes (walk_image (image_tag image.now) image.now «prototype» decisions.now strikes.now «budget» (length visited.old)) (length visited.old) }
    ensures within { result.steps ≤ «budget» }
{
    lent::clear(visited);
    let outcome = reader::read(image);
    match outcome {
        Err(Refusal { cause, place }) => refusal(cause, place),
        Ok(_) => {
            let tag = reader::image_tag(image);
            let q = prototype as usize;
            walk_taken(image, tag, q, decisions, strikes, budget, visited)
        }
    }
}
