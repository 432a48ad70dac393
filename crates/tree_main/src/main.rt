// Runs the check on the cases of standard input, a line each: a label, a colon and a blank, the tree in hexadecimal, a comma and a blank, and the
// words of the work area; in another mode than 0 a semicolon, a blank and the mode. Then on trees too large to write down, in mode 0. A line is written
// for each: the label and the answer.
#![tactic(auto)]

ghost use Rattle.std.specs.Prelude.{◌<◌, ◌≤◌, IfOk, vec_len};

use std::alloc::{AllocError, Global};
use std::io;
use std::io::Write;

// As much of the cases is read.
const TEXT_ROOM: usize = 65536;

// As much of a tree that is written down is taken.
const TREE_ROOM: usize = 2048;

fn main(rt: HostRuntime) -> io::Result<()> {
    let text = programs::read_front(rt.alloc(), rt.reader(), TEXT_ROOM)?;
    for line in text.as_slice().split_inclusive(|b| *b == b'\n') {
        case(&rt, line.strip_suffix(b"\n").unwrap_or(line))?;
    }
    deep(&rt, "depth 127", 126)?;
    deep(&rt, "depth 128", 127)?;
    deep(&rt, "depth 129", 128)?;
    broad(&rt, "32,768 nodes", 32767, 32767, 536576)?;
    broad(&rt, "32,768 nodes, a word too few", 32767, 32767, 536575)?;
    broad(
        &rt,
        "32,768 nodes, the last but one no child",
        32767,
        32766,
        536576,
    )?;
    broad(&rt, "32,769 fields", 32768, 0, 536592)?;
    broad(&rt, "40,000 fields, no work area", 39999, 0, 0)?;
    Ok(())
}

// The front of a slice as far as a byte, and the rest from there on.
fn parted(s: &[u8], b: u8) -> (&[u8], &[u8]) {
    s.split_at(s.iter().position(|x| *x == b).unwrap_or(s.len()))
}

fn case(rt: &HostRuntime, line: &[u8]) -> io::Result<()> {
    let (label, given) = parted(line, b':');
    let (tree, asked) = parted(given, b',');
    let (work, mode) = parted(asked, b';');
    let tree = bytes(rt.alloc(), tree)?;
    show(
        rt,
        label,
        tree.as_slice(),
        decimal(work),
        decimal(mode) as u64,
    )
}

// The value of a digit.
fn digit(b: u8) -> u8
    ensures { result ≤ 15 }
{
    match b {
        b'0'..=b'9' => b - b'0',
        b'a'..=b'f' => b - b'a' + 10,
        _ => 0,
    }
}

// The bytes of `: ` and then two digits each.
fn bytes(alloc: Global, s: &[u8]) -> Result<Vec<u8>, AllocError>
    ensures { IfOk result (λ tree. vec_len tree ≤ 2048) }
{
    s.get(2..)
        .unwrap_or(b"")
        .chunks_exact(2)
        .take(TREE_ROOM)
        .map(|pair| byte(pair))
        .collect(alloc)
}

// The byte that two digits write.
fn byte(pair: &[u8]) -> u8 {
    match pair {
        [high, low] => digit(*high) * 16 + digit(*low),
        _ => 0,
    }
}

// The number of `, ` or `; ` and then digits; 0 of nothing.
fn decimal(s: &[u8]) -> usize {
    s.iter()
        .skip(2)
        .fold(0, |v, b| v % 10000000 * 10 + usize::from(digit(*b)))
}

// A line of its own write. What cannot be written is missed.
fn show(rt: &HostRuntime, label: &[u8], tree: &[u8], work: usize, mode: u64) -> io::Result<()> {
    let mut line = Vec::new(rt.alloc());
    line.extend_from_slice(label)?;
    match tree::check(tree, work, mode) {
        Ok(nodes) => writeln!(line, ": accepted, {nodes} nodes")?,
        Err(why) => {
            let number = values::cause_number(why.cause);
            writeln!(line, ": refused by {} at {}", number, why.place)?
        }
    }
    let _ = rt.write_all(line.as_slice());
    Ok(())
}

// As many blocks, each in the next, in a program.
fn deep(rt: &HostRuntime, label: &str, blocks: u8) -> io::Result<()> {
    let mut tree = vec![in rt.alloc(); 0x12u8, 0, 0]?;
    for child in 0..blocks {
        let tag = if child + 1 == blocks { 0x1E } else { 0x12 };
        tree.extend_from_slice(&[tag, 0, 2, 0, child])?;
    }
    show(rt, label.as_bytes(), tree.as_slice(), 20000, 0)
}

// As many blocks side by side, and a program that has the first of them as children.
fn broad(rt: &HostRuntime, label: &str, blocks: usize, children: u16, work: usize) -> io::Result<()>
    requires { children < 32768 }
{
    let mut tree = Vec::new(rt.alloc());
    for _ in 0..blocks {
        tree.extend_from_slice(&[0x12, 0, 0])?;
    }
    tree.push(0x1E)?;
    tree.extend_from_slice(&(2 * children).to_be_bytes())?;
    for child in 0..children {
        tree.extend_from_slice(&child.to_be_bytes())?;
    }
    show(rt, label.as_bytes(), tree.as_slice(), work, 0)
}
