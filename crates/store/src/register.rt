// Registers of the current function.
ghost use Rattle.std.specs.Prelude.{◌<◌};
ghost use Rattle.meaning.specs.State.{next_register};
ghost use Rattle.meaning.specs.Expressions.{next_registers};
ghost use Rattle.forward.specs.Forward.{fwd_number, fwd_zero};
ghost use Rattle.store.specs.Store.{Fine};
ghost use Rattle.store.specs.Promise.{a_register, some_registers, Leaf};

use crate::layout::REGISTERS;
use crate::{Scope, Step};

// fn next_register
pub fn next_register(work: &mut [u32], step: Step, scope: Scope, node: usize) -> Step
    requires { Fine work.old scope step }
    ensures { Leaf work.old scope step work.new scope result a_register (fwd_number (next_register node)) × (result.result < 255) }
{
    let o = step.outcome;
    let Ok(_) = o else {
        return step;
    };
    let at = REGISTERS + 8 * scope.depth;
    let register = work[at] % 256;
    if register == 255 {
        return step.refuse(meaning::Cause::Registers, node);
    }
    work[at] = register + 1;
    step.settle(register)
}

// stays: no twin of `next_register`, which answers the register that it takes: one function for both would take the answer as well as n.
// `for _ in 1..n { self.next_register(); }`, at once: the count goes up by n, or there is no register left on the way.
pub fn next_registers(work: &mut [u32], step: Step, scope: Scope, node: usize, n: usize) -> Step
    requires { Fine work.old scope step × (n < 65536) }
    ensures { Leaf work.old scope step work.new scope result (some_registers n) (fwd_zero (next_registers node n)) × (result.result < 255) }
{
    let o = step.outcome;
    let Ok(_) = o else {
        return step;
    };
    let at = REGISTERS + 8 * scope.depth;
    let register = work[at] % 256;
    let more = n as u32;
    if 255 < register + more {
        return step.refuse(meaning::Cause::Registers, node);
    }
    work[at] = register + more;
    step.settle(0)
}
