// How a scope is made, of numbers or of the one around it: no other file writes one down.
ghost use Rattle.std.specs.Prelude.{◌≡◌, ◌+◌, ◌<◌, ◌≤◌};
ghost use Rattle.store.specs.Store.{deeper, looped, inner, main_scope};

use crate::Scope;

impl Scope {
    // The main function's, with its first block.
    pub fn main(mode: usize, wide: usize, nodes: usize) -> Scope
        ensures { result ≡ main_scope mode wide nodes }
    {
        Scope {
            nodes,
            depth: 0,
            block: 1,
            loops: 0,
            mode,
            wide,
        }
    }

    // One block more.
    pub(crate) fn deeper(self) -> Scope
        requires { (self.block < self.nodes + 10) × (self.nodes ≤ 32768) }
        ensures { result ≡ deeper self }
    {
        Scope {
            block: self.block + 1,
            ..self
        }
    }

    // One loop more.
    pub fn looped(self) -> Scope
        requires { (self.loops < self.nodes + 10) × (self.nodes ≤ 32768) }
        ensures { result ≡ looped self }
    {
        Scope {
            loops: self.loops + 1,
            ..self
        }
    }

    // One function more, with its first block.
    pub fn inner(self) -> Scope
        requires { (self.depth ≤ 7) × (self.block < self.nodes + 10) × (self.nodes ≤ 32768) }
        ensures { result ≡ inner self }
    {
        Scope {
            depth: self.depth + 1,
            block: self.block + 1,
            loops: 0,
            ..self
        }
    }
}
