// What the program is asked, by its arguments.
use std::env::{Env, FillError};

// A walk of a prototype, `budget` steps at most, with so many decisions and strikes; and whether the lent bytes are to be told.
#[derive(Clone, Copy)]
pub(crate) struct Asked {
    pub prototype: u64,
    pub budget: u64,
    pub decisions: u64,
    pub strikes: u64,
    pub visited: bool,
}

// Four numbers, and perhaps the word `visited`.
pub(crate) fn heard(rt: &impl Env) -> Option<Asked> {
    let prototype = number(rt, 1)?;
    let budget = number(rt, 2)?;
    let decisions = number(rt, 3)?;
    let strikes = number(rt, 4)?;
    let visited = is_visited(rt, 5);
    let is_last = !is_there(rt, if visited { 6 } else { 5 });
    is_last.then_some(Asked {
        prototype,
        budget,
        decisions,
        strikes,
        visited,
    })
}

// stays: arguments are read into bytes that are lent (`Env::arg`), and longer ones are neither word nor number.
// The argument is that word.
fn is_visited(rt: &impl Env, k: usize) -> bool {
    let mut word = [0u8; 7];
    match rt.arg(k, &mut word) {
        Ok(n) => word[..n] == b"visited"[..],
        Err(_) => false,
    }
}

// An argument in decimal. Twenty digits hold every number of 64 bits.
fn number(rt: &impl Env, k: usize) -> Option<u64> {
    let mut word = [0u8; 20];
    let n = rt.arg(k, &mut word).ok()?;
    programs::decimal(&word[..n])
}

// Whether there is an argument of that number.
fn is_there(rt: &impl Env, k: usize) -> bool {
    !matches!(rt.arg(k, &mut [0u8; 1]), Err(FillError::NotPresent))
}
