// Module 4 of document 01: statements and expressions are lowered by functions that call each other; the node's number falls at each call.
// A function is the straight line of its calls. Each passes a refused step on; the two dispatchers return it at once, and count a visit of any other;
// the loops count those of elifs and methods.
// stays: each member's six parameters; a struct of them has two loans, and each contract would say of both that they are the same (code/src/lib.rt).
#![tactic(auto)]

mod operators;

ghost use Rattle.std.specs.Prelude.{◌≡◌, ◌<◌, ◌≤◌};
ghost use Rattle.meaning.specs.Fields.{fields};
ghost use Rattle.meaning.specs.At.{tag_of};
ghost use Rattle.cycle.specs.Cycle.{GivenExpr, GivenStmt, AskExpr, AskStmt, AskFun, AskRow, AskElifs, AskMethods, AskArguments, AskBody, UnderExpr, UnderStmt, LowersExpr, LowersStmt, LowersFun, LowersRow, LowersElifs, LowersMethods, LowersArguments, LowersBody, LowersAddi, LowersMinus, LowersBoth};
ghost use Rattle.store.specs.Store.{depth_of};

use crate::operators::{binary_opcode, immediate, or_flag, unary_opcode};
use code::{ADDI, MOVE, SET_GLOBAL};
use instruction::OpCode;
use meaning::NO_MARK;
use store::{Scope, Step};

// Operators, as 01 numbers them, that have an immediate form.
const PLUS: u32 = 1;

const MINUS: u32 = 8;

const CLASS_METH: u32 = OpCode::ClassMeth as u32;

const CLASS_ST_METH: u32 = OpCode::ClassStMeth as u32;

// stays: enter_function takes the name's number and promises of each below 65536 (`Enters`); 65535 is document 01's for none.
const NO_NAME: usize = 65535;

// ---- rows of children

// self.compile, and the bodies of blocks, functions and branches: the statements in the words `from` up to `to`, which stand `skew` places further in the file.
#[cycle(visit)]
pub fn row(
    tree: &[u8],
    work: &mut [u32],
    out: &mut [u8],
    step: Step,
    scope: Scope,
    node: usize,
    from: usize,
    to: usize,
    skew: usize,
) -> Step
    requires { AskRow tree.now work.old scope step node from to skew }
    ensures { LowersRow tree.now node from to work.old out.old scope step work.new out.new result }
{
    let payload = nodes::payload_of(tree, work, node);
    let mut last = step;
    for k in from..to {
        let child = nodes::child(payload, k + skew);
        last = statement(tree, work, out, last, scope, child);
    }
    last
}

// ---- impl StmtVisitor for Compiler

// fn visit_expr_stmt
#[cycle(visit)]
fn expr_stmt(
    tree: &[u8],
    work: &mut [u32],
    out: &mut [u8],
    step: Step,
    scope: Scope,
    node: usize,
) -> Step
    requires { GivenStmt tree.now work.old scope step node × (tag_of (fields tree.now) node ≡ 0x10) }
    ensures { UnderStmt tree.now node work.old out.old scope step work.new out.new result }
{
    let value = nodes::expr_stmt_of(tree, work, node);
    expression(tree, work, out, step, scope, value)
}

// fn visit_try_catch_stmt
#[cycle(visit)]
fn try_catch(
    tree: &[u8],
    work: &mut [u32],
    out: &mut [u8],
    step: Step,
    scope: Scope,
    node: usize,
) -> Step
    requires { GivenStmt tree.now work.old scope step node × (tag_of (fields tree.now) node ≡ 0x1B) }
    ensures { UnderStmt tree.now node work.old out.old scope step work.new out.new result }
{
    let x = nodes::try_of(tree, work, node, scope.wide);
    let opened = routines::open_try_body(work, step, scope);
    let body = statement(tree, work, out, opened, scope, x.body);
    let ended = routines::end_try_body(work, body, scope);
    let inside = store::enter_block(work, scope);
    let caught = routines::open_catch(work, ended, inside, node, x.token);
    let last = statement(tree, work, out, caught, inside, x.catch);
    store::leave_block(work, scope);
    routines::end_try(work, last, scope, step.pc, body.pc)
}

// fn visit_classic_for_stmt: the body is lowered before the increment
#[cycle(visit)]
fn for_loop(
    tree: &[u8],
    work: &mut [u32],
    out: &mut [u8],
    step: Step,
    scope: Scope,
    node: usize,
) -> Step
    requires { GivenStmt tree.now work.old scope step node × (tag_of (fields tree.now) node ≡ 0x14) }
    ensures { UnderStmt tree.now node work.old out.old scope step work.new out.new result }
{
    let wide = scope.wide;
    let x = nodes::for_of(tree, work, node, wide);
    let first = row(
        tree,
        work,
        out,
        step,
        scope,
        node,
        1,
        nodes::initializer_end(x.initializer),
        wide,
    );
    let condition = expression(tree, work, out, first, scope, x.condition);
    let tested = code::test_and_jump(work, condition, scope, 0, x.mark);
    let body = statement(tree, work, out, tested, scope.looped(), x.body);
    let last = expression(tree, work, out, body, scope, x.increment);
    routines::end_loop(
        work,
        last,
        scope,
        step.pc,
        body.pc,
        first.pc,
        condition.pc,
        0,
        x.mark,
    )
}

// fn visit_enhanced_for_stmt
#[cycle(visit)]
fn for_in(
    tree: &[u8],
    work: &mut [u32],
    out: &mut [u8],
    step: Step,
    scope: Scope,
    node: usize,
) -> Step
    requires { GivenStmt tree.now work.old scope step node × (tag_of (fields tree.now) node ≡ 0x15) }
    ensures { UnderStmt tree.now node work.old out.old scope step work.new out.new result }
{
    let wide = scope.wide;
    let x = nodes::for_in_of(tree, work, node, wide);
    let payload = nodes::payload_of(tree, work, node);
    let counter = routines::open_for_in(work, step, scope, node, x.mark);
    let collection = expression(tree, work, out, counter, scope, x.collection);
    let head = routines::head_for_in(
        payload,
        work,
        collection,
        scope,
        node,
        3 + wide,
        x.names,
        counter.result,
        x.mark,
    );
    let body = statement(tree, work, out, head, scope.looped(), x.body);
    routines::end_for_in(
        work,
        body,
        scope,
        step.pc,
        collection.pc,
        counter.result,
        x.mark,
    )
}

// fn visit_let_stmt
#[cycle(visit)]
fn let_stmt(
    tree: &[u8],
    work: &mut [u32],
    out: &mut [u8],
    step: Step,
    scope: Scope,
    node: usize,
) -> Step
    requires { GivenStmt tree.now work.old scope step node × (tag_of (fields tree.now) node ≡ 0x11) }
    ensures { UnderStmt tree.now node work.old out.old scope step work.new out.new result }
{
    let x = nodes::let_of(tree, work, node, scope.wide);
    let Some(child) = x.value else {
        return routines::let_only(tree, work, step, scope, node);
    };
    if store::is_global_context(scope) {
        let name = routines::new_global(work, step, scope, node, x.token);
        let value = expression(tree, work, out, name, scope, child);
        return code::emit_bx(
            work,
            value,
            scope,
            SET_GLOBAL,
            value.result,
            name.result,
            x.token.mark,
        );
    }
    let value = expression(tree, work, out, step, scope, child);
    store::allocate_register(work, value, scope, x.token.name, value.result);
    value
}

// fn visit_block_stmt
#[cycle(visit)]
fn block(
    tree: &[u8],
    work: &mut [u32],
    out: &mut [u8],
    step: Step,
    scope: Scope,
    node: usize,
) -> Step
    requires { GivenStmt tree.now work.old scope step node × (tag_of (fields tree.now) node ≡ 0x12) }
    ensures { UnderStmt tree.now node work.old out.old scope step work.new out.new result }
{
    let n = nodes::count_of(tree, work, node, 0);
    let inside = store::enter_block(work, scope);
    let last = row(tree, work, out, step, inside, node, 0, n, 0);
    store::leave_block(work, scope);
    last.settle(0)
}

// fn visit_while_stmt
#[cycle(visit)]
fn while_loop(
    tree: &[u8],
    work: &mut [u32],
    out: &mut [u8],
    step: Step,
    scope: Scope,
    node: usize,
) -> Step
    requires { GivenStmt tree.now work.old scope step node × (tag_of (fields tree.now) node ≡ 0x13) }
    ensures { UnderStmt tree.now node work.old out.old scope step work.new out.new result }
{
    let x = nodes::while_of(tree, work, node, scope.wide);
    let condition = expression(tree, work, out, step, scope, x.condition);
    let tested = code::test_and_jump(work, condition, scope, 0, x.mark);
    let body = statement(tree, work, out, tested, scope.looped(), x.body);
    routines::end_loop(
        work,
        body,
        scope,
        step.pc,
        step.pc,
        step.pc,
        condition.pc,
        condition.result,
        x.mark,
    )
}

// fn visit_return_stmt
#[cycle(visit)]
fn return_stmt(
    tree: &[u8],
    work: &mut [u32],
    out: &mut [u8],
    step: Step,
    scope: Scope,
    node: usize,
) -> Step
    requires { GivenStmt tree.now work.old scope step node × (tag_of (fields tree.now) node ≡ 0x18) }
    ensures { UnderStmt tree.now node work.old out.old scope step work.new out.new result }
{
    let x = nodes::return_of(tree, work, node, scope.wide);
    let Some(child) = x.value else {
        return routines::return_none(tree, work, step, scope, node);
    };
    let value = expression(tree, work, out, step, scope, child);
    routines::end_return(work, value, scope, node, x.mark)
}

// fn visit_if_stmt: "if branches .. open no block"
#[cycle(visit)]
fn if_stmt(
    tree: &[u8],
    work: &mut [u32],
    out: &mut [u8],
    step: Step,
    scope: Scope,
    node: usize,
) -> Step
    requires { GivenStmt tree.now work.old scope step node × (tag_of (fields tree.now) node ≡ 0x19) }
    ensures { UnderStmt tree.now node work.old out.old scope step work.new out.new result }
{
    let wide = scope.wide;
    let x = nodes::if_of(tree, work, node, wide);
    let condition = expression(tree, work, out, step, scope, x.condition);
    let tested = code::test_and_jump(work, condition, scope, 0, x.mark);
    let then = row(tree, work, out, tested, scope, node, 3, x.thens, wide);
    let branch = routines::end_branch(work, then, scope, condition.pc, x.mark);
    let others = elifs(
        tree,
        work,
        out,
        branch,
        scope,
        node,
        x.thens + 1,
        x.elifs,
        wide,
    );
    let last = row(tree, work, out, others, scope, node, x.elifs, x.end, wide);
    routines::end_if(work, last, scope, step.pc)
}

// fn visit_if_stmt, `for elif in &stmt.elifs`
#[cycle(visit)]
fn elifs(
    tree: &[u8],
    work: &mut [u32],
    out: &mut [u8],
    step: Step,
    scope: Scope,
    node: usize,
    from: usize,
    to: usize,
    skew: usize,
) -> Step
    requires { AskElifs tree.now work.old scope step node from to skew }
    ensures { LowersElifs tree.now node from to work.old out.old scope step work.new out.new result }
{
    let payload = nodes::payload_of(tree, work, node);
    let mut last = step;
    for k in from..to {
        let child = nodes::child(payload, k + skew);
        let x = nodes::elif_of(tree, work, child);
        let condition = expression(tree, work, out, last, scope, x.condition);
        let tested = code::test_and_jump(work, condition, scope, 0, NO_MARK);
        let then = row(tree, work, out, tested, scope, child, 1, x.end, 0);
        last = routines::end_branch(work, then, scope, condition.pc, NO_MARK);
        store::visit(work);
    }
    last.settle(0)
}

// fn visit_fn_stmt
#[cycle(visit)]
fn fn_stmt(
    tree: &[u8],
    work: &mut [u32],
    out: &mut [u8],
    step: Step,
    scope: Scope,
    node: usize,
) -> Step
    requires { AskFun tree.now work.old scope step node }
    ensures { LowersFun tree.now node work.old out.old scope step work.new out.new result }
{
    let wide = scope.wide;
    let x = nodes::define_of(tree, work, node, wide);
    let payload = nodes::payload_of(tree, work, node);
    let own = routines::declare(work, step, scope, node, x.token);
    let entered = store::enter_function(work, own, scope, node, x.token.name);
    let opened = routines::open_fun(
        payload,
        work,
        entered.step,
        entered.scope,
        node,
        x.token,
        3 + wide,
        x.params,
    );
    let last = body(
        tree,
        work,
        out,
        opened,
        entered.scope,
        node,
        3 + 2 * x.params,
        x.end,
        wide + x.params * wide,
    );
    routines::end_fun(
        work, out, last, scope, own.pc, node, x.token, x.params, own.result,
    )
}

// fn visit_class_stmt
#[cycle(visit)]
fn class(
    tree: &[u8],
    work: &mut [u32],
    out: &mut [u8],
    step: Step,
    scope: Scope,
    node: usize,
) -> Step
    requires { GivenStmt tree.now work.old scope step node × (tag_of (fields tree.now) node ≡ 0x1D) × (depth_of scope ≤ 7) }
    ensures { UnderStmt tree.now node work.old out.old scope step work.new out.new result }
{
    let wide = scope.wide;
    let x = nodes::class_of(tree, work, node, wide);
    let own = routines::open_class(work, step, scope, node, x.token);
    let above = routines::superclass(tree, work, own, scope, node);
    let made = routines::make_class(work, above, scope, own.result, x.token.mark);
    let inside = store::enter_block(work, scope);
    let statics = 4 + x.methods;
    let plain = methods(
        tree,
        work,
        out,
        made,
        inside,
        node,
        4,
        statics,
        wide,
        x.token.mark,
        CLASS_METH,
        own.result,
    );
    let last = methods(
        tree,
        work,
        out,
        plain,
        inside,
        node,
        statics,
        x.end,
        wide,
        x.token.mark,
        CLASS_ST_METH,
        own.result,
    );
    store::leave_block(work, scope);
    routines::end_class(work, last, scope, node, x.token, own.result)
}

// fn visit_class_stmt, `for method in &stmt.methods` and `&stmt.static_methods`
#[cycle(visit)]
fn methods(
    tree: &[u8],
    work: &mut [u32],
    out: &mut [u8],
    step: Step,
    scope: Scope,
    node: usize,
    from: usize,
    to: usize,
    skew: usize,
    mark: u32,
    op: u32,
    class: u32,
) -> Step
    requires { AskMethods tree.now work.old scope step node from to skew op class }
    ensures { LowersMethods tree.now node from to mark op class work.old out.old scope step work.new out.new result }
{
    let payload = nodes::payload_of(tree, work, node);
    let mut last = step;
    for k in from..to {
        let child = nodes::child(payload, k + skew);
        let x = nodes::define_of(tree, work, child, scope.wide);
        let method = fn_stmt(tree, work, out, last, scope, child);
        last = routines::add_method(
            work,
            method,
            scope,
            node,
            mark,
            op,
            class,
            class + 1,
            x.token.name,
        );
        store::visit(work);
    }
    last.settle(0)
}

// ---- impl ExprVisitor for Compiler

// fn visit_function_expr
#[cycle(visit)]
fn function(
    tree: &[u8],
    work: &mut [u32],
    out: &mut [u8],
    step: Step,
    scope: Scope,
    node: usize,
) -> Step
    requires { GivenExpr tree.now work.old scope step node × (tag_of (fields tree.now) node ≡ 0x09) × (depth_of scope ≤ 7) }
    ensures { UnderExpr tree.now node work.old out.old scope step work.new out.new result }
{
    let wide = scope.wide;
    let x = nodes::function_of(tree, work, node, wide);
    let payload = nodes::payload_of(tree, work, node);
    let own = store::next_register(work, step, scope, node);
    let entered = store::enter_function(work, own, scope, node, NO_NAME);
    let opened = routines::open_function(
        payload,
        work,
        entered.step,
        entered.scope,
        node,
        1,
        x.params,
    );
    let last = body(
        tree,
        work,
        out,
        opened,
        entered.scope,
        node,
        1 + 2 * x.params,
        x.end,
        x.params * wide,
    );
    routines::end_function(
        work, out, last, scope, own.pc, node, x.params, own.result, x.mark,
    )
}

// visit_fn_stmt and visit_function_expr: the body, a block of its own
#[cycle(visit)]
fn body(
    tree: &[u8],
    work: &mut [u32],
    out: &mut [u8],
    step: Step,
    scope: Scope,
    node: usize,
    from: usize,
    to: usize,
    skew: usize,
) -> Step
    requires { AskBody tree.now work.old scope step node from to skew }
    ensures { LowersBody tree.now node from work.old out.old scope step work.new out.new result }
{
    let inside = store::enter_block(work, scope);
    let last = row(tree, work, out, step, inside, node, from, to, skew);
    let ended = routines::end_body(work, last, inside, to - from, step.pc, node);
    store::leave_block(work, scope);
    ended
}

// fn visit_binary_expr
#[cycle(visit)]
fn binary(
    tree: &[u8],
    work: &mut [u32],
    out: &mut [u8],
    step: Step,
    scope: Scope,
    node: usize,
) -> Step
    requires { GivenExpr tree.now work.old scope step node × (tag_of (fields tree.now) node ≡ 0x06) }
    ensures { UnderExpr tree.now node work.old out.old scope step work.new out.new result }
{
    let x = nodes::binary_of(tree, work, node, scope.wide);
    if let Some(k) = immediate(tree, work, scope, x.op, PLUS, x.right) {
        return addi(tree, work, out, step, scope, node, k);
    }
    if immediate(tree, work, scope, x.op, MINUS, x.left).is_some() {
        return minus(tree, work, out, step, scope, node);
    }
    both(tree, work, out, step, scope, node)
}

// fn binary_literal at Plus
#[cycle(visit)]
fn addi(
    tree: &[u8],
    work: &mut [u32],
    out: &mut [u8],
    step: Step,
    scope: Scope,
    node: usize,
    k: u8,
) -> Step
    requires { GivenExpr tree.now work.old scope step node × (tag_of (fields tree.now) node ≡ 0x06) }
    ensures { LowersAddi tree.now node k work.old out.old scope step work.new out.new result }
{
    let x = nodes::binary_of(tree, work, node, scope.wide);
    let left = expression(tree, work, out, step, scope, x.left);
    let last = store::next_register(work, left, scope, node);
    code::emit(
        work,
        last,
        scope,
        ADDI,
        last.result,
        left.result,
        u32::from(k),
        x.mark,
    )
}

// fn binary_literal at Minus: the right side is lowered and dropped, then all is lowered
#[cycle(visit)]
fn minus(
    tree: &[u8],
    work: &mut [u32],
    out: &mut [u8],
    step: Step,
    scope: Scope,
    node: usize,
) -> Step
    requires { GivenExpr tree.now work.old scope step node × (tag_of (fields tree.now) node ≡ 0x06) }
    ensures { LowersMinus tree.now node work.old out.old scope step work.new out.new result }
{
    let x = nodes::binary_of(tree, work, node, scope.wide);
    let right = expression(tree, work, out, step, scope, x.right);
    let last = store::next_register(work, right, scope, node);
    let again = code::roll_back(last, step.pc);
    both(tree, work, out, again, scope, node)
}

// fn visit_binary_expr, after the immediate forms
#[cycle(visit)]
fn both(
    tree: &[u8],
    work: &mut [u32],
    out: &mut [u8],
    step: Step,
    scope: Scope,
    node: usize,
) -> Step
    requires { GivenExpr tree.now work.old scope step node × (tag_of (fields tree.now) node ≡ 0x06) }
    ensures { LowersBoth tree.now node work.old out.old scope step work.new out.new result }
{
    let x = nodes::binary_of(tree, work, node, scope.wide);
    let left = expression(tree, work, out, step, scope, x.left);
    let right = expression(tree, work, out, left, scope, x.right);
    let last = store::next_register(work, right, scope, node);
    code::emit(
        work,
        last,
        scope,
        binary_opcode(x.op),
        last.result,
        left.result,
        right.result,
        x.mark,
    )
}

// fn visit_call_expr
#[cycle(visit)]
fn call(
    tree: &[u8],
    work: &mut [u32],
    out: &mut [u8],
    step: Step,
    scope: Scope,
    node: usize,
) -> Step
    requires { GivenExpr tree.now work.old scope step node × (tag_of (fields tree.now) node ≡ 0x08) }
    ensures { UnderExpr tree.now node work.old out.old scope step work.new out.new result }
{
    let x = nodes::call_of(tree, work, node, scope.wide);
    let callee = expression(tree, work, out, step, scope, x.callee);
    let opened = routines::open_call(work, callee, scope, node, x.arguments, x.mark);
    let last = arguments(tree, work, out, opened, scope, node, opened.result + 1);
    routines::end_call(work, last, scope, node, x.arguments, opened.result, x.mark)
}

// fn visit_call_expr, `for (i, expr) in (&expr.arguments).iter().enumerate()`
#[cycle(visit)]
fn arguments(
    tree: &[u8],
    work: &mut [u32],
    out: &mut [u8],
    step: Step,
    scope: Scope,
    node: usize,
    register: u32,
) -> Step
    requires { AskArguments tree.now work.old scope step node register }
    ensures { LowersArguments tree.now node register work.old out.old scope step work.new out.new result }
{
    let wide = scope.wide;
    let payload = nodes::payload_of(tree, work, node);
    let n = nodes::count_of(tree, work, node, wide);
    let mut last = step;
    for k in 2..n {
        let child = nodes::child(payload, k + wide);
        let argument = expression(tree, work, out, last, scope, child);
        let to = register + (k - 2) as u32;
        last = code::emit(work, argument, scope, MOVE, to, argument.result, 0, NO_MARK);
    }
    last.settle(0)
}

// fn visit_logical_expr
#[cycle(visit)]
fn logical(
    tree: &[u8],
    work: &mut [u32],
    out: &mut [u8],
    step: Step,
    scope: Scope,
    node: usize,
) -> Step
    requires { GivenExpr tree.now work.old scope step node × (tag_of (fields tree.now) node ≡ 0x07) }
    ensures { UnderExpr tree.now node work.old out.old scope step work.new out.new result }
{
    let x = nodes::logical_of(tree, work, node, scope.wide);
    let left = expression(tree, work, out, step, scope, x.left);
    let tested = code::test_and_jump(work, left, scope, or_flag(x.op), x.mark);
    let right = expression(tree, work, out, tested, scope, x.right);
    routines::end_logical(work, right, scope, left.pc, left.result, x.mark)
}

// fn visit_unary_expr
#[cycle(visit)]
fn unary(
    tree: &[u8],
    work: &mut [u32],
    out: &mut [u8],
    step: Step,
    scope: Scope,
    node: usize,
) -> Step
    requires { GivenExpr tree.now work.old scope step node × (tag_of (fields tree.now) node ≡ 0x05) }
    ensures { UnderExpr tree.now node work.old out.old scope step work.new out.new result }
{
    let x = nodes::unary_of(tree, work, node, scope.wide);
    let operand = expression(tree, work, out, step, scope, x.operand);
    code::emit(
        work,
        operand,
        scope,
        unary_opcode(x.op),
        operand.result,
        operand.result,
        0,
        x.mark,
    )
}

// impl StmtAcceptor for Stmt
// stays: the tags are document 01's bytes, and each contract here names its own (`tag_of .. ≡ 0x10`); an enum between would say them twice.
#[cycle(visit)]
fn statement(
    tree: &[u8],
    work: &mut [u32],
    out: &mut [u8],
    step: Step,
    scope: Scope,
    node: usize,
) -> Step
    requires { AskStmt tree.now work.old scope step node }
    ensures { LowersStmt tree.now node work.old out.old scope step work.new out.new result }
{
    let Ok(_) = step.outcome else {
        return step;
    };
    let tag = nodes::tag_of(tree, work, node);
    store::visit(work);
    match tag {
        0x10 => expr_stmt(tree, work, out, step, scope, node),
        0x11 => let_stmt(tree, work, out, step, scope, node),
        0x12 => block(tree, work, out, step, scope, node),
        0x13 => while_loop(tree, work, out, step, scope, node),
        0x14 => for_loop(tree, work, out, step, scope, node),
        0x15 => for_in(tree, work, out, step, scope, node),
        0x18 => return_stmt(tree, work, out, step, scope, node),
        0x19 => if_stmt(tree, work, out, step, scope, node),
        0x1B => try_catch(tree, work, out, step, scope, node),
        0x1C => fn_stmt(tree, work, out, step, scope, node),
        0x1D => class(tree, work, out, step, scope, node),
        _ => routines::jump(tree, work, step, scope, node),
    }
}

// impl ExprAcceptor for Expr
#[cycle(visit)]
fn expression(
    tree: &[u8],
    work: &mut [u32],
    out: &mut [u8],
    step: Step,
    scope: Scope,
    node: usize,
) -> Step
    requires { AskExpr tree.now work.old scope step node }
    ensures { LowersExpr tree.now node work.old out.old scope step work.new out.new result }
{
    let Ok(_) = step.outcome else {
        return step;
    };
    let tag = nodes::tag_of(tree, work, node);
    store::visit(work);
    match tag {
        0x04 => routines::variable(tree, work, step, scope, node),
        0x05 => unary(tree, work, out, step, scope, node),
        0x06 => binary(tree, work, out, step, scope, node),
        0x07 => logical(tree, work, out, step, scope, node),
        0x08 => call(tree, work, out, step, scope, node),
        0x09 => function(tree, work, out, step, scope, node),
        _ => routines::literal(tree, work, step, scope, node),
    }
}
