// What the programs share: standard input, and a word of the command line as a number.
#![tactic(auto)]

ghost use Rattle.std.specs.Prelude.{◌≡◌, ◌<◌, ◌≤◌, ◌&&◌, leb, cond, length, IfOk, IfSome, OnOk, Some, None, vec_len};
ghost use Rattle.programs.specs.Words.{is_digit, and_digit, spelled};

use std::alloc::{AllocError, Allocator};
use std::io::{ErrorKind, Read};

// One byte more than the longest image: 256 prototypes of 13 bytes, each with 65,535 captures of 5 and as many instructions of 11, and 1,024 constants of 11.
pub const IMAGE_ROOM: usize = 268445953;

// An input of this length or more is not read, whatever it is.
pub const INPUT_ROOM: usize = 2147418112;

// stays: beside `read_front`, since it asks for no memory and cannot fail: the room is lent.
// What was read so far goes to the front of the room, what follows on standard input behind it.
pub fn filled(read: &[u8], room: &mut [u8]) -> usize
    ensures { result ≤ length room.old }
{
    let n = read.len().min(room.len());
    room[..n].copy_from_slice(&read[..n]);
    n + io::read_full(0, &mut room[n..])
}

// The status of a program behind a command where there is not enough memory. No shell ends with it by itself.
pub const NO_MEMORY: u8 = 3;

// What a reader gives, as many bytes as a limit at most. A read that fails ends the input. Each read asks for all that there is room for, since what
// gives messages cuts them to that. The room doubles, and is never larger than the limit.
pub fn read_front<A: Allocator>(
    alloc: A,
    from: impl Read + Drop,
    limit: usize,
) -> Result<Vec<u8, A>, AllocError>
    ensures { IfOk result (λ bytes. vec_len bytes ≤ limit) }
{
    let mut from = from;
    let mut bytes = vec![in alloc; 0u8; first_room(limit)]?;
    let mut count = 0;
    for _ in 0..u64::MAX {
        make_room(&mut bytes, count, limit)?;
        match read_once(&mut from, &mut bytes.as_mut_slice()[count..]) {
            0 => break,
            n => count += n,
        }
    }
    bytes.truncate(count);
    Ok(bytes)
}

// Twice the room where it is full, and no more than the limit.
fn make_room<A: Allocator>(
    bytes: &mut Vec<u8, A>,
    count: usize,
    limit: usize,
) -> Result<(), AllocError>
    requires { (count ≤ vec_len bytes.old) × (vec_len bytes.old ≤ limit) }
    ensures { OnOk result ((count ≤ vec_len bytes.new) × (vec_len bytes.new ≤ limit)) }
{
    if count < bytes.len() {
        return Ok(());
    }
    let room = count.saturating_mul(2).min(limit);
    bytes.reserve_exact(room.saturating_sub(count))?;
    bytes.resize(room, 0)
}

// All of a small limit, else 64 KiB, and 1 MiB of trees and runs: powers of two, so that a room ends where a message of such a size does.
fn first_room(limit: usize) -> usize
    ensures { result ≤ limit }
{
    if limit <= 1048576 {
        limit
    } else if limit < INPUT_ROOM {
        65536
    } else {
        1048576
    }
}

// How many bytes one read gives: none at the end, where it fails, or where there is no room.
fn read_once(from: &mut (impl Read + Drop), room: &mut [u8]) -> usize
    ensures { result ≤ length room.old }
{
    for _ in 0..u64::MAX {
        match from.read(room) {
            Ok(n) => return n,
            Err(e) if e.kind() == ErrorKind::Interrupted => {}
            Err(_) => break,
        }
    }
    0
}

// The same where it is less than the limit.
pub fn read<A: Allocator>(
    alloc: A,
    from: impl Read + Drop,
    limit: usize,
) -> Result<Option<Vec<u8, A>>, AllocError>
    ensures { IfOk result (λ given. IfSome given (λ bytes. vec_len bytes < limit)) }
{
    let bytes = read_front(alloc, from, limit)?;
    Ok(if bytes.len() < limit {
        Some(bytes)
    } else {
        None
    })
}

// The number of 64 bits that a word spells, digits alone and one at least.
pub fn decimal(word: &[u8]) -> Option<u64>
    ensures { result ≡ spelled word.now }
{
    if word.is_empty() {
        return None;
    }
    let mut value = 0;
    for digit in word {
        value = with_digit(value, *digit)?;
    }
    Some(value)
}

// The number so far with one digit more, where the byte is a digit and 64 bits hold the number.
fn with_digit(value: u64, digit: u8) -> Option<u64>
    ensures { result ≡ cond (is_digit digit && leb (and_digit value digit) 18446744073709551615) (Some (and_digit value digit)) None }
{
    if !matches!(digit, b'0'..=b'9') {
        return None;
    }
    value.checked_mul(10)?.checked_add(u64::from(digit - b'0'))
}

#[cfg(test)]
mod tests {
    use super::{read, read_front};

    // A limit that is not reached, one that is, and one that is passed.
    #[test]
    fn limits(rt: HostRuntime) {
        for (limit, front, is_whole) in [(6usize, 5usize, true), (5, 5, false), (4, 4, false)] {
            let bytes = read_front(rt.alloc(), b"bytes".as_slice(), limit).expect(&rt, "memory");
            assert!(rt; bytes.as_slice() == &b"bytes"[..front]);
            let given = read(rt.alloc(), b"bytes".as_slice(), limit).expect(&rt, "memory");
            assert!(rt; given.is_some() == is_whole);
        }
    }
}
