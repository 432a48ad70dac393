// Lowers the tree on standard input in the mode that the first argument says, 0 without one: its image on standard output, and one line on
// standard error: the image's length and the visits, or what is refused, or failed.
#![tactic(auto)]

mod mode;
mod words;

ghost use Rattle.std.specs.Prelude.{◌≤◌, length};

use meaning::Reply;
use std::alloc::AllocError;
use std::process::ExitCode;
use words::Said;

// The first output, which holds an ordinary image.
const ORDINARY: usize = 1048576;

// 256 prototypes of 13 bytes, each with 255 captures of 5 and 32,767 instructions of 9, and 1,024 constants of 11.
const LONGEST: usize = 92612864;

// The work area that 32,768 nodes ask for, in words.
const WORK: usize = 536576;

fn main(rt: HostRuntime) -> ExitCode {
    let (said, status) = match run(&rt) {
        Ok(said) => (said, ExitCode::SUCCESS),
        Err(AllocError) => (Said::NoMemory, ExitCode::from(programs::NO_MEMORY)),
    };
    let _ = rt.eprintln(said);
    status
}

// What there is to say. A mode that is none is told before anything is read. Every tree that is accepted has less than 1 MiB: 32,768 nodes of at
// most 13 bytes and a child's word, and 255 names in each of 256 functions. A longer one is read for the number and the place.
fn run(rt: &HostRuntime) -> Result<Said, AllocError> {
    let Some(mode) = mode::said(rt) else {
        return Ok(Said::NoMode);
    };
    let nothing = of_nothing(mode);
    // stays: a number, as the call and C's answer have it.
    if nothing.number == 21 {
        return Ok(Said::Refused(nothing));
    }
    match programs::read(rt.alloc(), rt.reader(), programs::INPUT_ROOM)? {
        Some(tree) => lowered(rt, tree.as_slice(), mode),
        None => Ok(Said::TooLong),
    }
}

// What the call says of no bytes: 21 where the mode is none, and else 1.
fn of_nothing(mode: u64) -> Reply {
    lower::lower(b"", &mut [0u32; 1], &mut [0u8; 1], mode)
}

// An image that is longer than the first output is asked for once more, with room for the longest: 18 comes last, so nothing else was wrong.
fn lowered(rt: &HostRuntime, tree: &[u8], mode: u64) -> Result<Said, AllocError> {
    let mut work = vec![in rt.alloc(); 0u32; WORK]?;
    let mut out = vec![in rt.alloc(); 0u8; ORDINARY]?;
    let first = answer(tree, work.as_mut_slice(), out.as_mut_slice(), mode);
    if first.number != 18 {
        return Ok(told(rt, first, out.as_slice()));
    }
    let mut out = vec![in rt.alloc(); 0u8; LONGEST]?;
    let second = answer(tree, work.as_mut_slice(), out.as_mut_slice(), mode);
    Ok(told(rt, second, out.as_slice()))
}

fn answer(tree: &[u8], work: &mut [u32], out: &mut [u8], mode: u64) -> Reply
    ensures { result.length ≤ length out.new }
{
    lower::lower(tree, work, out, mode)
}

// Writes the image, if there is one.
fn told(rt: &impl Print, a: Reply, out: &[u8]) -> Said
    requires { a.length ≤ length out.now }
{
    if a.number != 0 {
        return Said::Refused(a);
    }
    match rt.write_all(&out[..a.length as usize]) {
        Ok(()) => Said::Lowered(a),
        Err(_) => Said::Unwritten,
    }
}
