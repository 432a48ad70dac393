// Finished prototypes in the output.
ghost use Rattle.std.specs.Prelude.{◌<◌, ◌≤◌, ◌≡◌};
ghost use Rattle.forward.specs.Forward.{leave_function};
ghost use Rattle.store.specs.Store.{outcome_of, pc_of, result_of, inner, code_tag, Fine, while_going};
ghost use Rattle.store.specs.Promise.{nothing};
ghost use Rattle.store.specs.Opening.{Leavable};
ghost use Rattle.code.specs.Cuts.{Adds, Ends, EndsProgram};

use meaning::Cause;
use store::{Scope, Step};

// stays: `wide` is Scope's number, and the tag the byte that image and writers take.
// The tag of the image's instructions, by the width of the marks.
fn code_tag(scope: Scope) -> u8
    ensures { result ≡ code_tag scope }
{
    if scope.wide == 0 { 0x43 } else { 0x47 }
}

// The prototype of the current function: 17 Long, then 15 Prototypes at the 257th. It is written where it fits, and counted always.
fn add_prototype(
    work: &[u32],
    out: &mut [u8],
    step: Step,
    scope: Scope,
    first: usize,
    node: usize,
    params: usize,
) -> Step
    requires { Fine work.now scope step × while_going (outcome_of step) (first ≤ pc_of step) × (params < 65536) }
    ensures { Adds first work.now out.old scope step out.new result node params }
{
    let Ok(written) = step.outcome else {
        return step;
    };
    let count = step.pc - first;
    if 32766 < count {
        return step.refuse(Cause::Long, node);
    }
    if step.functions == 256 {
        return step.refuse(Cause::Prototypes, node);
    }
    let end = image::place_prototype(
        work,
        out,
        written,
        code_tag(scope),
        scope,
        scope.depth,
        first,
        count,
        params as u32,
    );
    step.prototype_more(first, end)
}

// fn leave_function of a function inside `scope`: its prototype, its code cut off, its locals popped.
pub fn leave_function(
    work: &mut [u32],
    out: &mut [u8],
    step: Step,
    scope: Scope,
    first: usize,
    node: usize,
    params: usize,
) -> Step
    requires { Fine work.old (inner scope) step × Leavable work.old scope × while_going (outcome_of step) (first ≤ pc_of step) × (params < 65536) }
    ensures { Ends first work.old out.old scope step work.new out.new result nothing (leave_function first node params) × (result_of result < 256) }
{
    let inside = scope.inner();
    let next = add_prototype(work, out, step, inside, first, node, params);
    store::leave_block(work, scope);
    next
}

// fn leave_function of the main function, with 0 parameters.
pub fn end_program(work: &[u32], out: &mut [u8], step: Step, scope: Scope, node: usize) -> Step
    requires { Fine work.now scope step }
    ensures { EndsProgram work.now out.old scope step out.new result node }
{
    add_prototype(work, out, step, scope, 0, node, 0)
}
