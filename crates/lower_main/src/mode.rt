// The mode that the program is told by its first argument.
use std::env::{Env, FillError};

// stays: an argument is read into bytes that are lent (`Env::arg`), and a longer one is no number.
// The first argument in decimal; 0 where there is none. Twenty digits hold every number of 64 bits.
pub(crate) fn said(rt: &impl Env) -> Option<u64> {
    let mut word = [0u8; 20];
    match rt.arg(1, &mut word) {
        Ok(n) => programs::decimal(&word[..n]),
        Err(FillError::NotPresent) => Some(0),
        Err(FillError::TooLong) => None,
    }
}
