// Locals, found by links from the bucket of their name.
ghost use Rattle.std.specs.Prelude.{◌≡◌, ◌+◌, ◌*◌, ◌%◌, ◌<◌, ◌≤◌, length};
ghost use Rattle.std.proofs.Math.Option.{none};
ghost use Rattle.meaning.specs.State.{allocate_register, get_var_register};
ghost use Rattle.forward.specs.Forward.{fwd_unit};
ghost use Rattle.store.specs.declared.Step.{Step};
ghost use Rattle.store.specs.Half.{with_half};
ghost use Rattle.store.specs.Layout.{all_words, local_at, first_head, head};
ghost use Rattle.store.specs.Store.{while_going, Sound, Fine};
ghost use Rattle.store.specs.Promise.{a_register, a_local, both, a_parameter, Space, Leaf, Tells, Latest, Unlinked};
ghost use Rattle.store.specs.Search.{option_of, found_of, in_byte, seek, Walkable};

use crate::half::{half_at, set_half};
use crate::layout::{EDGES, FIRSTS, LOCAL_REGISTERS, LOCALS, first_head};
use crate::register::next_register;
use crate::{Scope, Step};

// The bucket of a name.
pub(crate) fn bucket(name: usize, nodes: usize) -> usize
    requires { (1 ≤ nodes) × (nodes ≤ 32768) }
    ensures { (result ≡ name % (10 * nodes)) × (result < 10 * nodes) }
{
    let buckets = 10 * nodes;
    if name < buckets { name } else { name % buckets }
}

// The head of bucket b.
fn head_at(work: &[u32], nodes: usize, b: usize) -> u32
    requires { (all_words nodes ≤ length work.now) × (nodes ≤ 32768) × (b < 10 * nodes) }
    ensures { result ≡ head work.now nodes b }
{
    half_at(work, first_head(nodes) + b)
}

// It is set anew.
pub(crate) fn set_head(work: &mut [u32], nodes: usize, b: usize, v: u32)
    requires { (all_words nodes ≤ length work.old) × (nodes ≤ 32768) × (b < 10 * nodes) × (v < 65536) }
    ensures { work.new ≡ with_half work.old (first_head nodes + b) v }
{
    set_half(work, first_head(nodes) + b, v);
}

// stays: both loops go along links, not up a range; so does that of `unlink`.
// The register of the latest of the locals from `start` up to `end` with that name.
pub(crate) fn look(work: &[u32], nodes: usize, start: usize, end: usize, name: usize) -> Option<u32>
    requires { Walkable work.now nodes end }
    ensures { result ≡ found_of (seek name (local_at work.now nodes) start end none) }
{
    let b = bucket(name, nodes);
    let base = LOCALS + 2 * nodes;
    let mut i = head_at(work, nodes, b) as usize;
    while end < i {
        i = (work[base + (i - 1)] / 65536) as usize;
    }
    while start < i {
        let x = work[base + (i - 1)];
        let its = (x % 65536) as usize;
        if its == name {
            return Some(half_at(work, LOCAL_REGISTERS + (i - 1)) % 255);
        }
        i = (x / 65536) as usize;
    }
    None
}

// fn get_var_register: a local of the current function.
pub fn get_var_register(work: &[u32], scope: Scope, name: usize) -> Option<u32>
    requires { Sound work.now scope }
    ensures { ((s : Step) → Tells work.now scope s (option_of result) (get_var_register name)) × in_byte result }
{
    let nodes = scope.nodes;
    let edges = EDGES + nodes;
    let first = work[FIRSTS + 8 * scope.depth] as usize;
    let start = work[edges + first] as usize;
    let end = work[edges + scope.block] as usize;
    look(work, nodes, start, end, name)
}

// One of the latest local's name in its block is shadowed until both are popped: it is taken out of the links, so that a walk meets a name once in each block.
fn unlink(work: &mut [u32], scope: Scope, name: usize)
    requires { Sound work.old scope × Latest work.old scope name }
    ensures { Unlinked work.old scope work.new }
{
    let nodes = scope.nodes;
    let at = EDGES + nodes + scope.block;
    let base = LOCALS + 2 * nodes;
    let from = work[at - 1] as usize;
    let mut last = work[at] as usize - 1;
    let mut next = (work[base + last] / 65536) as usize;
    while from < next {
        let x = work[base + (next - 1)];
        let its = (x % 65536) as usize;
        if its == name {
            work[base + last] = x / 65536 * 65536 + work[base + last] % 65536;
            return;
        }
        last = next - 1;
        next = (x / 65536) as usize;
    }
}

// fn allocate_register: the local `name` names `register`, in the innermost block. It becomes the head of its bucket and links to the one before.
pub fn allocate_register(work: &mut [u32], step: Step, scope: Scope, name: usize, register: u32)
    requires { Fine work.old scope step × Space work.old scope step 0 1 1 × (name < 65536) × while_going step.outcome (register < 255) }
    ensures { Leaf work.old scope step work.new scope step a_local (fwd_unit (allocate_register name register)) }
{
    let o = step.outcome;
    let Ok(_) = o else {
        return;
    };
    let nodes = scope.nodes;
    let at = EDGES + nodes + scope.block;
    let count = work[at];
    let i = count as usize;
    let b = bucket(name, nodes);
    let before = head_at(work, nodes, b);
    set_half(work, LOCAL_REGISTERS + i, register);
    set_head(work, nodes, b, count + 1);
    work[LOCALS + 2 * nodes + i] = before * 65536 + name as u32;
    work[at] = count + 1;
    unlink(work, scope, name);
}

// A register, and a local that names it: a parameter, a function's own name, a for-in's or a catch's variable.
pub fn declare_parameter(
    work: &mut [u32],
    step: Step,
    scope: Scope,
    name: usize,
    node: usize,
) -> Step
    requires { Fine work.old scope step × Space work.old scope step 0 0 0 × (name < 65536) }
    ensures { Leaf work.old scope step work.new scope result (both a_register a_local) (a_parameter node name) × (result.result < 255) }
{
    let taken = next_register(work, step, scope, node);
    allocate_register(work, taken, scope, name, taken.result);
    taken
}
