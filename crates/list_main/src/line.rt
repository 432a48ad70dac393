// A line of the list: prototype, index, name, a, b, c, mark, and what is retired.
ghost use Rattle.std.specs.Prelude.{◌≡◌, cond, ◌%◌, eqb};

use crate::names;
use meaning::Instruction;
use std::fmt;

// An instruction at its place, in an image whose instructions have a tag.
#[derive(Clone, Copy)]
pub(crate) struct Line {
    pub prototype: usize,
    pub index: usize,
    pub inst: Instruction,
    pub tag: u8,
}

impl fmt::Display for Line {
    fn fmt<W: fmt::Write>(&self, f: &mut fmt::Formatter<W>) -> fmt::Result {
        let Instruction {
            opcode,
            a,
            b,
            c,
            mark,
        } = self.inst;
        let name = names::NAMES.get(usize::from(opcode)).copied().unwrap_or("");
        let mark = mark_number(mark, self.tag);
        write!(
            f,
            "{} {} {name} {a} {b} {c} {mark}",
            self.prototype, self.index
        )?;
        if names::is_retired(opcode) {
            f.write_str(" retired")?;
        }
        Ok(())
    }
}

// The number of a mark, as the image has it: two bytes with 43, so that none is 65,535, and four with 47 (document 02, E5).
fn mark_number(mark: u32, tag: u8) -> u32
    ensures { result ≡ cond (eqb tag 0x47) mark (mark % 65536) }
{
    if tag == 0x47 { mark } else { mark % 65536 }
}
