// One instruction more, and code cut off.
ghost use Rattle.std.specs.Prelude.{◌≡◌, ◌<◌};
ghost use Rattle.meaning.specs.Opcode.{inst, inst_bx};
ghost use Rattle.forward.specs.Forward.{sure, emit, put};
ghost use Rattle.store.specs.Store.{outcome_of, Fine, while_going};
ghost use Rattle.store.specs.Promise.{uses, Space, Leaf};
ghost use Rattle.store.specs.Cell.{Bytes};
ghost use Rattle.code.specs.Cuts.{rolled_step};

use store::{Scope, Step, pack, write_cell};

// stays: three public functions beside `put`, each one call of it or of `put_bx`; one type of operands would be made at every call only to be taken apart here.

// One instruction more, and the result.
pub fn put(
    work: &mut [u32],
    step: Step,
    scope: Scope,
    op: u32,
    a: u32,
    b: u32,
    c: u32,
    mark: u32,
    res: u32,
) -> Step
    requires { Fine work.old scope step × Space work.old scope step 0 2 0 × while_going (outcome_of step) (Bytes op a b c) × while_going (outcome_of step) (res < 1024) }
    ensures { Leaf work.old scope step work.new scope result (uses 2 0 0) (sure (put res (inst op a b c mark))) }
{
    let Ok(_) = step.outcome else {
        return step;
    };
    let pc = step.pc;
    write_cell(work, scope, pc, pack(op, a, b, c), mark);
    step.advance(pc + 1, res)
}

// The same with a 16-bit number.
pub fn put_bx(
    work: &mut [u32],
    step: Step,
    scope: Scope,
    op: u32,
    a: u32,
    n: u32,
    mark: u32,
    res: u32,
) -> Step
    requires { Fine work.old scope step × Space work.old scope step 0 2 0 × while_going (outcome_of step) ((op < 256) × (a < 256)) × while_going (outcome_of step) (res < 1024) }
    ensures { Leaf work.old scope step work.new scope result (uses 2 0 0) (sure (put res (inst_bx op a n mark))) }
{
    let h = instruction::forward(n as usize);
    put(
        work,
        step,
        scope,
        op,
        a,
        u32::from(h.b),
        u32::from(h.c),
        mark,
        res,
    )
}

// One instruction more; the result stays.
pub fn emit(
    work: &mut [u32],
    step: Step,
    scope: Scope,
    op: u32,
    a: u32,
    b: u32,
    c: u32,
    mark: u32,
) -> Step
    requires { Fine work.old scope step × Space work.old scope step 0 2 0 × while_going (outcome_of step) (Bytes op a b c) }
    ensures { Leaf work.old scope step work.new scope result (uses 2 0 0) (sure (emit (inst op a b c mark))) }
{
    put(work, step, scope, op, a, b, c, mark, step.result)
}

// The same with a 16-bit number.
pub fn emit_bx(
    work: &mut [u32],
    step: Step,
    scope: Scope,
    op: u32,
    a: u32,
    n: u32,
    mark: u32,
) -> Step
    requires { Fine work.old scope step × Space work.old scope step 0 2 0 × while_going (outcome_of step) ((op < 256) × (a < 256)) }
    ensures { Leaf work.old scope step work.new scope result (uses 2 0 0) (sure (emit (inst_bx op a n mark))) }
{
    put_bx(work, step, scope, op, a, n, mark, step.result)
}

// binary_literal at Minus: the code of the dropped pass is cut off.
pub fn roll_back(step: Step, first: usize) -> Step
    ensures { result ≡ rolled_step step first }
{
    let Ok(_) = step.outcome else {
        return step;
    };
    step.advance(first, 0)
}
