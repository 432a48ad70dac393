// One call, on noise, and what is due of it.
ghost use Rattle.std.specs.Prelude.{◌<◌};

use crate::file;
use crate::file::Case;
use meaning::Reply;
use std::fmt;

// What of a case differs.
#[derive(Clone, Copy, PartialEq, Eq)]
pub(crate) enum Difference {
    Sizes,
    Number,
    Place,
    Length,
    Image,
    Checksum,
    Work,
    Output,
}

impl fmt::Display for Difference {
    fn fmt<W: fmt::Write>(&self, f: &mut fmt::Formatter<W>) -> fmt::Result {
        f.write_str(match *self {
            Difference::Sizes => "the sizes of its tree and buffers",
            Difference::Number => "the number",
            Difference::Place => "the place",
            Difference::Length => "the length",
            Difference::Image => "the image",
            Difference::Checksum => "the image's checksum",
            Difference::Work => "the work area, which is not all zero",
            Difference::Output => "the output, which is not zero behind the image",
        })
    }
}

// Numbers that a seed begins.
#[derive(Drop)]
struct Noise(u32);

impl Iterator for Noise {
    type Item = u32;

    fn next(&mut self) -> Option<u32> {
        self.0 = self.0.wrapping_mul(1664525).wrapping_add(1013904223);
        Some(self.0)
    }
}

// The bytes that the file shows.
fn same_image(text: &[u8], image: usize, shown: usize, out: &[u8]) -> bool {
    match out.get(..shown) {
        Some(front) => front
            .iter()
            .enumerate()
            .all(|(i, b)| *b == file::byte(text, file::forth(image, i))),
        None => false,
    }
}

// Adler-32 of the first bytes.
fn checksum(out: &[u8], count: usize) -> usize {
    let mut a = 1;
    let mut b = 0;
    for x in out.get(..count).unwrap_or(out) {
        a = (a + usize::from(*x)) % 65521;
        b = (b + a) % 65521;
    }
    b * 65536 + a
}

fn judge(text: &[u8], c: Case, got: Reply, work: &[u32], out: &[u8]) -> Result<(), Difference> {
    if got.number != c.number as u64 {
        return Err(Difference::Number);
    }
    if got.place != c.place as u64 {
        return Err(Difference::Place);
    }
    if got.length != c.length as u64 {
        return Err(Difference::Length);
    }
    if !same_image(text, c.image, c.shown, out) {
        return Err(Difference::Image);
    }
    if checksum(out, c.length) != c.checksum {
        return Err(Difference::Checksum);
    }
    if work.iter().any(|x| *x != 0) {
        return Err(Difference::Work);
    }
    if out.iter().skip(c.length).any(|x| *x != 0) {
        return Err(Difference::Output);
    }
    Ok(())
}

// The call on slices of the sizes that the case says.
fn call(
    text: &[u8],
    c: Case,
    tree: &[u8],
    work: &mut [u32],
    out: &mut [u8],
) -> Result<(), Difference> {
    for (word, x) in work.iter_mut().zip(Noise((c.checksum % 4294967296) as u32)) {
        *word = x;
    }
    for (byte, x) in out.iter_mut().zip(Noise((c.tree % 4294967296) as u32)) {
        *byte = (x / 16777216) as u8;
    }
    let got = lower::lower(tree, work, out, c.mode);
    judge(text, c, got, work, out)
}

// The same with buffers that are large enough.
pub(crate) fn ask(
    text: &[u8],
    c: Case,
    tree: &mut [u8],
    work: &mut [u32],
    out: &mut [u8],
) -> Result<(), Difference> {
    let length = file::build(text, c.parts, tree);
    if length != c.tree {
        return Err(Difference::Sizes);
    }
    let tree = tree.get(..length).ok_or(Difference::Sizes)?;
    let work = work.get_mut(..c.work).ok_or(Difference::Sizes)?;
    let out = out.get_mut(..c.room).ok_or(Difference::Sizes)?;
    call(text, c, tree, work, out)
}
