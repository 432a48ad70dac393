// Walks a prototype of an image by recorded decisions and failures (document 02, E4 and E8). Arguments, in decimal: the prototype, the budget, how many
// bytes at the front of standard input are the decisions, and how many numbers behind them, of eight bytes with the high byte first, are the strikes;
// the image is what follows. On standard output one line, number, place, steps, index and ending; with the word `visited` behind the numbers, and where
// nothing was refused, a second line with a 0 or a 1 for each instruction of the prototype. Wrong words, or an input that is too long: nothing is
// written.
#![tactic(auto)]

mod words;

use std::alloc::{AllocError, Global};
use std::process::ExitCode;
use words::Asked;

// An image that is taken has 268,445,952 bytes at most, so there is room for more than 1,870,000,000 bytes of decisions and strikes.
const MOST_STRIKES: usize = 16777216;

// A prototype has 65,535 instructions at most.
const MOST_VISITED: usize = 65536;

// What was read, in its parts.
#[derive(Clone, Copy)]
struct Parts<'a> {
    decisions: &'a [u8],
    strikes: &'a [u8],
    image: &'a [u8],
}

fn main(rt: HostRuntime) -> ExitCode {
    match run(&rt) {
        Ok(()) => ExitCode::SUCCESS,
        Err(AllocError) => {
            let _ = rt.eprintln("there is not enough memory");
            ExitCode::from(programs::NO_MEMORY)
        }
    }
}

fn run(rt: &HostRuntime) -> Result<(), AllocError> {
    let Some(asked) = words::heard(rt) else {
        return Ok(());
    };
    let Some(input) = programs::read(rt.alloc(), rt.reader(), programs::INPUT_ROOM)? else {
        return Ok(());
    };
    let Some(parts) = parted(input.as_slice(), asked) else {
        return Ok(());
    };
    // What cannot be written is missed.
    let _ = rt.write_all(walked(rt.alloc(), parts, asked)?.as_bytes());
    Ok(())
}

// The decisions stand first, then the strikes, then the image.
fn parted<'a>(input: &'a [u8], asked: Asked) -> Option<Parts<'a>> {
    let (decisions, rest) = input.split_at_checked(asked.decisions as usize)?;
    let (strikes, image) = rest.split_at_checked((asked.strikes as usize).checked_mul(8)?)?;
    if MOST_STRIKES < strikes.len() / 8 {
        return None;
    }
    Some(Parts {
        decisions,
        strikes,
        image,
    })
}

// The lines that tell of the walk.
fn walked(alloc: Global, parts: Parts<'_>, asked: Asked) -> Result<String, AllocError> {
    let strikes = numbers(alloc, parts.strikes)?;
    let mut visited = vec![in alloc; 0u8; MOST_VISITED]?;
    let a = walk::walk(
        parts.image,
        asked.prototype,
        parts.decisions,
        strikes.as_slice(),
        asked.budget,
        visited.as_mut_slice(),
    );
    let mut lines = format!(in alloc;
        "{} {} {} {} {}\n",
        a.number, a.place, a.steps, a.index, a.ending
    )?;
    // stays: a number, as the call and C's answer have it.
    if asked.visited && a.number == 0 {
        if let Some(n) = instructions(parts.image, asked.prototype as usize) {
            shown(&mut lines, visited.as_slice(), n)?;
        }
    }
    Ok(lines)
}

fn numbers(alloc: Global, strikes: &[u8]) -> Result<Vec<u64>, AllocError> {
    strikes
        .chunks_exact(8)
        .map(|bytes| values::bits_at(bytes))
        .collect(alloc)
}

// How many instructions a prototype has, as its header says. The image is asked about once more, since only one in order may be read.
fn instructions(image: &[u8], q: usize) -> Option<usize> {
    let Ok(_) = reader::read(image) else {
        return None;
    };
    let part = reader::prototype(image, reader::image_tag(image), q);
    if part.len() < 13 {
        return None;
    }
    Some(fields::word(part, 11))
}

// The first n bytes as characters, in a line.
fn shown(lines: &mut String, visited: &[u8], n: usize) -> Result<(), AllocError> {
    for x in visited.iter().take(n) {
        lines.push(if *x == 0 { '0' } else { '1' })?;
    }
    lines.push('\n')
}
