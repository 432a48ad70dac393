// The work area as a lowering finds it.
ghost use Rattle.std.specs.Prelude.{◌≡◌, ◌≤◌, length};
ghost use Rattle.store.specs.Layout.{all_words};
ghost use Rattle.store.specs.Store.{first_step};
ghost use Rattle.store.specs.Opening.{Framed, Begun};

use crate::Step;
use crate::layout::{EDGES, NAMES, VISITS, beyond, top};

// Where main's first block ends.
const SECOND_EDGE: usize = EDGES + 1;

// The frame of the function at `depth`.
pub(crate) fn open_frame(work: &mut [u32], depth: usize, name: u32, block: u32, loops: u32)
    requires { (depth ≤ 8) × (3144 ≤ length work.old) }
    ensures { Framed work.old depth name block loops work.new }
{
    let at = NAMES + 8 * depth;
    work[at] = name;
    work[at + 1] = 0;
    work[at + 2] = 0;
    work[at + 3] = block;
    work[at + 4] = loops;
}

// A fresh compiler: the main function with its first block, no local in any bucket, and the program's own visit.
pub fn begin(work: &mut [u32], nodes: usize) -> Step
    requires { (1 ≤ nodes) × (nodes ≤ 32768) × (all_words nodes ≤ length work.old) }
    ensures { (result ≡ first_step) × Begun work.old nodes work.new }
{
    work[VISITS] = 1;
    work[top(nodes)..beyond(nodes)].fill(0);
    work[EDGES + nodes] = 0;
    work[SECOND_EDGE + nodes] = 0;
    open_frame(work, 0, 65535, 0, 0);
    Step::first()
}
