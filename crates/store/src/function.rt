// Functions that are entered.
ghost use Rattle.std.specs.Prelude.{◌≡◌, ◌+◌, ◌<◌, ◌≤◌};
ghost use Rattle.store.specs.Store.{inner, Fine};
ghost use Rattle.store.specs.Opening.{Enters};

use crate::layout::EDGES;
use crate::start::open_frame;
use crate::{Entered, Scope, Step};

// fn enter_function: a ninth is refused, and has a scope of its own all the same, in which nothing happens any more.
pub fn enter_function(
    work: &mut [u32],
    step: Step,
    scope: Scope,
    node: usize,
    name: usize,
) -> Entered
    requires { Fine work.old scope step × (scope.depth ≤ 7) × (scope.block < scope.nodes + 10) × (name < 65536) }
    ensures { (result.scope ≡ inner scope) × Enters work.old scope step work.new result.step node name }
{
    let depth = scope.depth;
    let block = scope.block;
    open_frame(
        work,
        depth + 1,
        name as u32,
        block as u32,
        scope.loops as u32,
    );
    let at = EDGES + scope.nodes + block;
    work[at + 1] = work[at];
    let inside = scope.inner();
    if depth == 7 {
        let refused = step.refuse(meaning::Cause::Nesting, node);
        return Entered {
            step: refused,
            scope: inside,
        };
    }
    Entered {
        step: step,
        scope: inside,
    }
}
