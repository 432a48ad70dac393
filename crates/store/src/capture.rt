// Captures of the open functions.
ghost use Rattle.std.specs.Prelude.{◌≡◌, ◌<◌, ◌≤◌, length};
ghost use Rattle.meaning.specs.State.{get_upvalue};
ghost use Rattle.store.specs.Layout.{capture_word};
ghost use Rattle.store.specs.Store.{Fine};
ghost use Rattle.store.specs.Promise.{nothing, Told};
ghost use Rattle.store.specs.Search.{option_of, in_byte, Added, Sought, Ready};

use crate::global::main_alone;
use crate::half::{half_at, set_half};
use crate::layout::{CAPTURES, EDGES, FIRSTS, HELD};
use crate::local::look;
use crate::{Lookup, Scope, Step};

// Capture i of function j, as it is stored: an index, or 256 and a register.
pub fn capture_word(work: &[u32], j: usize, i: usize) -> u32
    requires { (4168 ≤ length work.now) × (j ≤ 7) × (i < 256) }
    ensures { result ≡ capture_word work.now j i }
{
    half_at(work, CAPTURES + 256 * j + i) % 512
}

// A function has 255 captures already.
#[derive(Clone, Copy)]
struct NoRoom;

// fn add_upvalue of the function at `depth`: an equal capture is reused.
fn add_upvalue(work: &mut [u32], depth: usize, capture: u32) -> Result<u32, NoRoom>
    requires { (4168 ≤ length work.old) × (depth ≤ 7) × (capture < 512) }
    ensures { Added work.old depth capture work.new result }
{
    let count = HELD + 8 * depth;
    let n = work[count] % 256;
    let end = n as usize;
    for i in 0..end {
        if capture_word(work, depth, i) == capture {
            return Ok(i as u32);
        }
    }
    if n == 255 {
        return Err(NoRoom);
    }
    set_half(work, CAPTURES + 256 * depth + end, capture);
    work[count] = n + 1;
    Ok(n)
}

// fn _get_upvalue: outward one open function at a time, adding captures on the way back.
fn search(work: &mut [u32], nodes: usize, depth: usize, name: usize) -> Result<Option<u32>, NoRoom>
    requires { Ready work.old nodes depth }
    ensures { Sought work.old nodes depth name work.new result }
{
    if depth == 0 {
        return Ok(None);
    }
    let outer = depth - 1;
    let end = work[FIRSTS + 8 * depth] as usize;
    if main_alone(outer, end) {
        return Ok(None);
    }
    let start = work[FIRSTS + 8 * outer] as usize;
    let from = work[EDGES + nodes + start] as usize;
    let to = work[EDGES + nodes + end] as usize;
    let Some(register) = look(work, nodes, from, to, name) else {
        let Some(index) = search(work, nodes, outer, name)? else {
            return Ok(None);
        };
        return Ok(Some(add_upvalue(work, depth, index)?));
    };
    Ok(Some(add_upvalue(work, depth, 256 + register)?))
}

// fn get_upvalue: the index of the capture, in a function that is not main's first block alone.
pub fn get_upvalue(work: &mut [u32], step: Step, scope: Scope, name: usize, node: usize) -> Lookup
    requires { Fine work.old scope step }
    ensures { Told work.old scope step work.new scope result.step nothing (option_of result.found) (get_upvalue node name) × in_byte result.found }
{
    let o = step.outcome;
    let Ok(_) = o else {
        return Lookup { step, found: None };
    };
    match search(work, scope.nodes, scope.depth, name) {
        Ok(found) => Lookup { step, found },
        Err(NoRoom) => Lookup {
            step: step.refuse(meaning::Cause::Captures, node),
            found: None,
        },
    }
}
