// visit_enhanced_for_stmt; `for_in` of `cycle` lowers its children.
ghost use Rattle.std.specs.Prelude.{[], ◌∷◌, ℕ, ◌+◌, ◌*◌, ◌<◌, ◌≤◌};
ghost use Rattle.meaning.specs.Read.{token};
ghost use Rattle.meaning.specs.Statements.{iterate_each, iterate};
ghost use Rattle.forward.specs.Forward.{fwd_code, open_for_in, head_for_in, sure, end_for_in};
ghost use Rattle.store.specs.Store.{mode_of, outcome_of, pc_of, result_of, while_going, Fine};
ghost use Rattle.store.specs.Promise.{uses, some_registers, both, Space, Leaf};
ghost use Rattle.routines.specs.Pieces.{tokens_from, HasPairs};

use crate::loops::{close_loop, continue_goal};
use code::{ADDI, LOAD_K};
use instruction::OpCode;
use meaning::Literal;
use store::{Scope, Step};

const LT: u32 = OpCode::Lt as u32;

const GET_ITER: u32 = OpCode::GetIter as u32;

const GET_ITERK: u32 = OpCode::GetIterk as u32;

const GET_ITERI: u32 = OpCode::GetIteri as u32;

const LENGTH: u32 = OpCode::Length as u32;

// visit_enhanced_for_stmt before the collection: registers of counter, size, condition and element; the counter is 0.
pub fn open_for_in(work: &mut [u32], step: Step, scope: Scope, node: usize, mark: u32) -> Step
    requires { Fine work.old scope step × Space work.old scope step 0 0 0 }
    ensures { Leaf work.old scope step work.new scope result (both (some_registers 4) (uses 2 0 0)) (open_for_in node mark) × while_going (outcome_of result) (result_of result + 3 < 255) }
{
    let counter = store::next_register(work, step, scope, node);
    let size = store::next_register(work, counter, scope, node);
    let condition = store::next_register(work, size, scope, node);
    let element = store::next_register(work, condition, scope, node);
    let zero = store::add_constant(work, element, scope, Literal::Number(0.0), node);
    code::put_bx(
        work,
        zero,
        scope,
        LOAD_K,
        counter.result,
        zero.result,
        mark,
        counter.result,
    )
}

// The element has the only name: its local, and a GetIterk.
fn iterate_one(
    work: &mut [u32],
    step: Step,
    scope: Scope,
    name: usize,
    collection: u32,
    counter: u32,
    mark: u32,
) -> Step
    requires { Fine work.old scope step × Space work.old scope step 0 3 1 × (name < 65536) × (counter + 3 < 255) × (collection < 256) }
    ensures { (node place : ℕ) → Leaf work.old scope step work.new scope result (uses 3 1 0) (fwd_code (iterate node mark (counter + 3) collection counter (token name place ∷ []))) }
{
    store::allocate_register(work, step, scope, name, counter + 3);
    code::put(
        work,
        step,
        scope,
        GET_ITERK,
        counter + 3,
        collection,
        counter,
        mark,
        0,
    )
}

// A register, a local and a GetIteri for each of the n names from word `from` of the payload on.
fn iterate_each(
    payload: &[u8],
    work: &mut [u32],
    step: Step,
    scope: Scope,
    node: usize,
    from: usize,
    n: usize,
    element: u32,
    mark: u32,
) -> Step
    requires { Fine work.old scope step × Space work.old scope step 0 0 0 × HasPairs scope payload.now from n × (n < 65536) × while_going (outcome_of step) (element < 256) }
    ensures { Leaf work.old scope step work.new scope result (both (some_registers n) (uses (3 * n) n 0)) (fwd_code (iterate_each node mark element 0 (tokens_from scope payload.now from n))) }
{
    let mut last = step;
    for k in 0..n {
        let name = nodes::pair(payload, from, k, scope.wide);
        let next = store::declare_parameter(work, last, scope, name, node);
        last = code::emit(
            work,
            next,
            scope,
            GET_ITERI,
            next.result,
            element,
            k as u32,
            mark,
        );
    }
    last.settle(0)
}

// One name names the element, several its parts.
fn iterate(
    payload: &[u8],
    work: &mut [u32],
    step: Step,
    scope: Scope,
    node: usize,
    from: usize,
    n: usize,
    collection: u32,
    counter: u32,
    mark: u32,
) -> Step
    requires { Fine work.old scope step × Space work.old scope step 0 3 1 × (1 ≤ n) × HasPairs scope payload.now from n × (n < 65536) × (counter + 3 < 255) × (collection < 256) }
    ensures { Leaf work.old scope step work.new scope result (uses 3 1 0) (fwd_code (iterate node mark (counter + 3) collection counter (tokens_from scope payload.now from n))) }
{
    if n == 1 {
        let name = nodes::child(payload, from);
        return iterate_one(work, step, scope, name, collection, counter, mark);
    }
    let gotten = code::emit(
        work,
        step,
        scope,
        GET_ITER,
        counter + 3,
        collection,
        counter,
        mark,
    );
    iterate_each(
        payload,
        work,
        gotten,
        scope,
        node,
        from,
        n,
        counter + 3,
        mark,
    )
}

// visit_enhanced_for_stmt after the collection: the condition, then the names' registers.
pub fn head_for_in(
    payload: &[u8],
    work: &mut [u32],
    step: Step,
    scope: Scope,
    node: usize,
    from: usize,
    n: usize,
    counter: u32,
    mark: u32,
) -> Step
    requires { Fine work.old scope step × Space work.old scope step 0 11 1 × (1 ≤ n) × HasPairs scope payload.now from n × (n < 65536) × while_going (outcome_of step) ((counter + 3 < 255) × (result_of step < 256)) }
    ensures { Leaf work.old scope step work.new scope result (uses 11 1 0) (head_for_in node (tokens_from scope payload.now from n) counter mark) }
{
    let Ok(_) = step.outcome else {
        return step;
    };
    let sized = code::emit(work, step, scope, LENGTH, counter + 1, step.result, 0, mark);
    let compared = code::put(
        work,
        sized,
        scope,
        LT,
        counter + 2,
        counter,
        counter + 1,
        mark,
        counter + 2,
    );
    let tested = code::test_and_jump(work, compared, scope, 0, mark);
    iterate(
        payload,
        work,
        tested,
        scope,
        node,
        from,
        n,
        step.result,
        counter,
        mark,
    )
}

// visit_enhanced_for_stmt after the body; Length and Lt stand before the Test.
pub fn end_for_in(
    work: &mut [u32],
    step: Step,
    scope: Scope,
    first: usize,
    condition: usize,
    counter: u32,
    mark: u32,
) -> Step
    requires { Fine work.old scope step × Space work.old scope step 0 4 0 × while_going (outcome_of step) ((first ≤ pc_of step) × (condition + 4 ≤ pc_of step) × (counter < 256)) }
    ensures { Leaf work.old scope step work.new scope result (uses 4 0 0) (sure (end_for_in (mode_of scope) first condition counter mark)) }
{
    let Ok(_) = step.outcome else {
        return step;
    };
    let pc = step.pc;
    let word = store::pack(ADDI, counter, counter, 1);
    store::write_cell(work, scope, pc, word, mark);
    let goal = continue_goal(scope.mode, first, pc);
    close_loop(
        work,
        scope,
        pc + 1,
        goal,
        first,
        condition,
        condition + 2,
        mark,
    );
    step.advance(pc + 2, 0)
}
