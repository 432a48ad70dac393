// Blocks: where the locals of each open one begin.
ghost use Rattle.std.specs.Prelude.{◌≡◌, ◌+◌, ◌<◌};
ghost use Rattle.meaning.specs.State.{enter_block};
ghost use Rattle.forward.specs.Forward.{fwd_unit};
ghost use Rattle.store.specs.declared.Step.{Step};
ghost use Rattle.store.specs.Store.{deeper, Sound, Fine, Kept};
ghost use Rattle.store.specs.Promise.{nothing, Leaf, Popped};

use crate::layout::{EDGES, LOCALS};
use crate::local::{bucket, set_head};
use crate::{Scope, Step};

// fn enter_block: the scope inside.
pub fn enter_block(work: &mut [u32], scope: Scope) -> Scope
    requires { Sound work.old scope × (scope.block < scope.nodes + 10) }
    ensures { (result ≡ deeper scope) × Kept work.old (deeper scope) work.new × ((s : Step) → Fine work.old scope s → Leaf work.old scope s work.new (deeper scope) s nothing (fwd_unit enter_block)) }
{
    let at = EDGES + scope.nodes + scope.block;
    work[at + 1] = work[at];
    scope.deeper()
}

// fn leave_block, and a function's last block: the locals of the block inside `scope` are popped, the latest first, refused or not.
pub fn leave_block(work: &mut [u32], scope: Scope)
    requires { Sound work.old (deeper scope) }
    ensures { Popped work.old scope work.new }
{
    let nodes = scope.nodes;
    let at = EDGES + nodes + scope.block;
    let from = work[at] as usize;
    let to = work[at + 1] as usize;
    for i in (from..to).rev() {
        let x = work[LOCALS + 2 * nodes + i];
        let b = bucket((x % 65536) as usize, nodes);
        set_head(work, nodes, b, x / 65536);
    }
}
