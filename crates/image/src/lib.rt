// The bytes of an image (document 01, "Image file"): what the work area holds, handed to the writers part by part.
#![tactic(auto)]

mod constants;

ghost use Rattle.std.specs.Prelude.{◌+◌, ◌*◌, ◌<◌, ◌≤◌, ◌≡◌, [], ◌∷◌, length};
ghost use Rattle.meaning.specs.Images.{inst_size};
ghost use Rattle.meaning.specs.Image.{capture_bytes, inst_bytes, proto_bytes};
ghost use Rattle.store.specs.Table.{tab};
ghost use Rattle.store.specs.Layout.{capture_of, capture_at, held, inst_at};
ghost use Rattle.store.specs.Store.{top_of, HasCells};
ghost use Rattle.writers.specs.Spliced.{Spliced};
ghost use Rattle.writers.specs.Values.{capture_of as captured};
ghost use Rattle.image.specs.Output.{Placed, proto_of};

pub use constants::finish;
use instruction::OpCode;
use meaning::NO_MARK;
use store::{HELD, NAMES, REGISTERS, Scope, unpacked};
use writers::{Capture, Header};

// stays: `work`, `out` and `at` side by side, as writers takes the last two.
const RETURN: u32 = OpCode::Return as u32;

// A capture as it is stored: from 256 on a local.
// stays: no From, since a number from 512 on is no capture, and no TryFrom, since none is ever stored and its Err would have no one to take it.
fn capture_of(x: u32) -> Capture
    requires { x < 512 }
    ensures { captured result ≡ capture_of x }
{
    Capture {
        local: 256 <= x,
        index: (x % 256) as u8,
    }
}

// The captures of function j.
fn put_captures(work: &[u32], out: &mut [u8], at: usize, j: usize, count: usize)
    requires { (4168 ≤ length work.now) × (j ≤ 7) × (count < 256) × (at + 5 * count ≤ length out.old) }
    ensures { Spliced out.old at (capture_bytes (tab (capture_at work.now j) count)) out.new }
{
    for i in 0..count {
        let capture = capture_of(store::capture_word(work, j, i));
        writers::put_capture(out, at + 5 * i, capture);
    }
}

// The bytes of an instruction, by its tag: a mark has two or four.
// stays: `inst_size` of `reader` is its like, in a crate that the lowering does not use; one line is plainer than that dependency.
fn span(tag: u8) -> usize
    ensures { (result ≡ 3 + inst_size tag) × (result ≤ 11) }
{
    if tag == 0x47 { 11 } else { 9 }
}

// The pending code from `first` on.
fn put_code(
    work: &[u32],
    out: &mut [u8],
    from: usize,
    tag: u8,
    scope: Scope,
    first: usize,
    count: usize,
)
    requires { HasCells work.now scope (first + count) × (from + count * (3 + inst_size tag) ≤ length out.old) }
    ensures { Spliced out.old from (inst_bytes tag (tab (λ i. inst_at work.now (top_of scope) (first + i)) count)) out.new }
{
    let size = span(tag);
    let mut at = from;
    for i in 0..count {
        let x = store::inst_at(work, scope, first + i);
        writers::put_inst(out, at, tag, x);
        at += size;
    }
}

// A prototype: function j, whose code are the `count` instructions from `first` on, and the last Return.
fn put_prototype(
    work: &[u32],
    out: &mut [u8],
    at: usize,
    tag: u8,
    scope: Scope,
    j: usize,
    first: usize,
    count: usize,
    params: u32,
)
    requires { HasCells work.now scope (first + count) × (j ≤ 7) × (count < 32767) × (at + (13 + 5 * held work.now j + (count + 1) * (3 + inst_size tag)) ≤ length out.old) }
    ensures { Spliced out.old at (proto_bytes tag (proto_of work.now (top_of scope) j first count params ∷ [])) out.new }
{
    let name = work[NAMES + 8 * j];
    let registers = work[REGISTERS + 8 * j] % 256;
    let held = work[HELD + 8 * j] % 256;
    let header = Header {
        name,
        params,
        registers,
        captures: held,
        code: (count + 1) as u32,
    };
    writers::put_header(out, at, header);
    let captures = held as usize;
    put_captures(work, out, at + 13, j, captures);
    let code = at + 13 + 5 * captures;
    put_code(work, out, code, tag, scope, first, count);
    let size = span(tag);
    writers::put_inst(out, code + count * size, tag, unpacked(RETURN, NO_MARK));
}

// The same where it fits; in any case where it ends.
pub fn place_prototype(
    work: &[u32],
    out: &mut [u8],
    at: usize,
    tag: u8,
    scope: Scope,
    j: usize,
    first: usize,
    count: usize,
    params: u32,
) -> usize
    requires { HasCells work.now scope (first + count) × (j ≤ 7) × (count < 32767) × (at < 4294967296) }
    ensures { Placed out.old at (proto_bytes tag (proto_of work.now (top_of scope) j first count params ∷ [])) out.new result }
{
    let held = (work[HELD + 8 * j] % 256) as usize;
    let size = span(tag);
    let end = at + (13 + 5 * held + (count + 1) * size);
    if end <= out.len() {
        put_prototype(work, out, at, tag, scope, j, first, count, params);
    }
    end
}
