// Lists the image on standard input, of at most 65,535 bytes (document 02, E1): on standard output a line for each instruction, or number and
// place of what is refused. Of a longer one nothing is written.
// Started with a word, whichever, it writes the verdict alone, number and place, `0 0` of an image that is taken; it then takes every length that an
// image can have.
#![tactic(auto)]

mod line;
mod names;

ghost use Rattle.std.specs.Prelude.{◌≤◌, length};
ghost use Rattle.reader.specs.Laid.{Ordered, proto_span};

use line::Line;
use meaning::Refusal;
use std::alloc::AllocError;
use std::env::{Env, FillError};
use std::io;
use std::process::ExitCode;

// One byte more than the longest image that is listed.
const LISTED_ROOM: usize = 65536;

// No line is longer.
const LINE_ROOM: usize = 160;

fn main(rt: HostRuntime) -> ExitCode {
    match run(&rt) {
        Ok(()) => ExitCode::SUCCESS,
        Err(AllocError) => {
            let _ = rt.eprintln("there is not enough memory");
            ExitCode::from(programs::NO_MEMORY)
        }
    }
}

fn run(rt: &HostRuntime) -> Result<(), AllocError> {
    let alone = has_word(rt);
    let room = if alone {
        programs::IMAGE_ROOM
    } else {
        LISTED_ROOM
    };
    if let Some(image) = programs::read(rt.alloc(), rt.reader(), room)? {
        let mut line = String::with_capacity(rt.alloc(), LINE_ROOM)?;
        // What cannot be written is missed.
        let _ = answered(rt, &mut line, image.as_slice(), alone);
    }
    Ok(())
}

// Whether there is a first word.
fn has_word(rt: &impl Env) -> bool {
    !matches!(rt.arg(1, &mut [0u8; 1]), Err(FillError::NotPresent))
}

// stays: whether a word was given, which is asked once; an enum of two would spell the same bool.
// The lines, or the verdict.
fn answered(rt: &impl Print, line: &mut String, image: &[u8], alone: bool) -> io::Result<()> {
    let outcome = reader::read(image);
    match outcome {
        Ok(_) if !alone => listed(rt, line, image, reader::image_tag(image)),
        _ => verdict(rt, outcome),
    }
}

fn verdict(rt: &impl Print, outcome: Result<usize, Refusal>) -> io::Result<()> {
    let a = values::answer_of(outcome);
    println!(rt; "{} {}", a.number, a.place)
}

// Each prototype is found once; an image has 256 of them at most.
fn listed(rt: &impl Print, line: &mut String, image: &[u8], tag: u8) -> io::Result<()>
    requires { Ordered image.now tag }
{
    for q in 0..256 {
        let part = reader::prototype(image, tag, q);
        if !reader::heads(part) {
            break;
        }
        lines(rt, line, part, tag, q)?;
    }
    Ok(())
}

// A line for each instruction of the prototype at the front, which has number q. Each is a write of its own, and none follows one that fails.
fn lines(rt: &impl Print, line: &mut String, part: &[u8], tag: u8, q: usize) -> io::Result<()>
    requires { proto_span part.now tag ≤ length part.now }
{
    for i in 0..fields::word(part, 11) {
        let inst = reader::instruction(part, tag, i);
        let told = Line {
            prototype: q,
            index: i,
            inst,
            tag,
        };
        line.clear();
        writeln!(line, "{told}")?;
        rt.write_all(line.as_bytes())?;
    }
    Ok(())
}
