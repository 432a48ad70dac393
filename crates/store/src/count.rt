// Visits (document 02, E6): how many nodes were lowered so far, in a word of main's frame.
ghost use Rattle.std.specs.Prelude.{◌≡◌, ◌≤◌, length};
ghost use Rattle.store.specs.Layout.{visited};
ghost use Rattle.store.specs.Promise.{Ticked};

use crate::layout::VISITS;

// One visit more.
pub fn visit(work: &mut [u32])
    requires { 3144 ≤ length work.old }
    ensures { Ticked work.old work.new }
{
    work[VISITS] = std::num::wrapping_add_u32(work[VISITS], 1);
}

// The visits so far.
pub fn visits(work: &[u32]) -> u32
    requires { 3144 ≤ length work.now }
    ensures { result ≡ visited work.now }
{
    work[VISITS]
}
