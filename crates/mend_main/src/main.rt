// Mends the image on standard input (document 02, E9): on standard output a line of four numbers, number, place, length of the image and entries in
// the list; where number is 0 the bytes of the list follow, then those of the mended image. Of more bytes than an image can have nothing is written.
#![tactic(auto)]

ghost use Rattle.std.specs.Prelude.{◌*◌, ◌≤◌, length};

use meaning::MendAnswer;
use std::alloc::AllocError;
use std::io;
use std::process::ExitCode;

// An entry of eight bytes stands for an instruction of nine or more, so the list is no longer than the image; and 256 prototypes of 65,535
// instructions have 16,776,960 entries at most.
const LONGEST_LIST: usize = 134215680;

fn main(rt: HostRuntime) -> ExitCode {
    match run(&rt) {
        Ok(()) => ExitCode::SUCCESS,
        Err(AllocError) => {
            let _ = rt.eprintln("there is not enough memory");
            ExitCode::from(programs::NO_MEMORY)
        }
    }
}

fn run(rt: &HostRuntime) -> Result<(), AllocError> {
    let Some(image) = programs::read(rt.alloc(), rt.reader(), programs::IMAGE_ROOM)? else {
        return Ok(());
    };
    let mut out = vec![in rt.alloc(); 0u8; image.len()]?;
    let mut list = vec![in rt.alloc(); 0u8; image.len().min(LONGEST_LIST)]?;
    let answer = mended(image.as_slice(), out.as_mut_slice(), list.as_mut_slice());
    // Who reads counts the bytes, so what could not be written is missed.
    let _ = tell(rt, answer, out.as_slice(), list.as_slice());
    Ok(())
}

// The image stands within the output, and the entries within the list.
fn mended(image: &[u8], out: &mut [u8], list: &mut [u8]) -> MendAnswer
    ensures { (result.length ≤ length out.new) × (8 * result.entries ≤ length list.new) }
{
    mend::mend(image, out, list)
}

// The four numbers, then what they speak of.
fn tell(rt: &impl Print, a: MendAnswer, out: &[u8], list: &[u8]) -> io::Result<()>
    requires { (a.length ≤ length out.now) × (8 * a.entries ≤ length list.now) }
{
    println!(rt; "{} {} {} {}", a.number, a.place, a.length, a.entries)?;
    // stays: a number, as the call and C's answer have it.
    if a.number == 0 {
        rt.write_all(&list[..8 * a.entries as usize])?;
        rt.write_all(&out[..a.length as usize])?;
    }
    Ok(())
}
