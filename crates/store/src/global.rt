// Globals, by their names.
ghost use Rattle.std.specs.Prelude.{◌≡◌, ℕ, ◌<◌, ◌≤◌, List};
ghost use Rattle.meaning.specs.State.{add_global, among, is_global_context, is_global_var};
ghost use Rattle.forward.specs.Forward.{fwd_unit};
ghost use Rattle.store.specs.declared.Step.{Step};
ghost use Rattle.store.specs.Table.{stack};
ghost use Rattle.store.specs.Layout.{global_at};
ghost use Rattle.store.specs.Store.{while_going, main_alone, global_scope, Sound, Fine};
ghost use Rattle.store.specs.Promise.{a_global, Leaf, Tells};

use crate::half::{half_at, set_half};
use crate::layout::GLOBALS;
use crate::{Scope, Step};

// The main function, with its first block alone.
pub(crate) fn main_alone(depth: usize, block: usize) -> bool
    ensures { result ≡ main_alone depth block }
{
    depth == 0 && block == 1
}

// fn is_global_context
pub fn is_global_context(scope: Scope) -> bool
    ensures { (result ≡ global_scope scope) × ((w : List ℕ) (s : Step) → Sound w scope → Tells w scope s result is_global_context) }
{
    main_alone(scope.depth, scope.block)
}

// fn is_global_var
pub fn is_global_var(work: &[u32], step: Step, scope: Scope, name: usize) -> bool
    requires { Fine work.now scope step }
    ensures { (result ≡ among name (stack (global_at work.now) step.globals)) × Tells work.now scope step result (is_global_var name) }
{
    // from the latest back: a name that was declared lately is found after few reads
    (0..step.globals)
        .rev()
        .any(|i| half_at(work, GLOBALS + i) as usize == name)
}

// self.globals.insert(..)
pub fn add_global(work: &mut [u32], step: Step, scope: Scope, name: usize) -> Step
    requires { Fine work.old scope step × while_going step.outcome (step.globals ≤ step.constants) × (name < 65536) }
    ensures { Leaf work.old scope step work.new scope result a_global (fwd_unit (add_global name)) }
{
    let o = step.outcome;
    let Ok(_) = o else {
        return step;
    };
    set_half(work, GLOBALS + step.globals, name as u32);
    step.global_more()
}
