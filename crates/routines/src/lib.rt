// The routines of the Rust's compiler, but for their recursion (that is `cycle`): what each does before, between and behind its children, and the whole of one
// that has none. A file for each `visit_` routine, named after it; what several share is in loops.rt, names.rt and bodies.rt.
// stays: `work`, `step` and `scope` side by side, as `code` takes them: code/src/lib.rt says what a struct of them would cost.
#![tactic(auto)]

mod binary_expr;
mod bodies;
mod break_stmt;
mod call_expr;
mod class_stmt;
mod enhanced_for_stmt;
mod fn_stmt;
mod function_expr;
mod if_stmt;
mod let_stmt;
mod literal_expr;
mod logical_expr;
mod loops;
mod names;
mod return_stmt;
mod try_catch_stmt;
mod variable_expr;

pub use binary_expr::small_operand;
pub use bodies::end_body;
pub use break_stmt::jump;
pub use call_expr::{end_call, open_call};
pub use class_stmt::{add_method, end_class, make_class, open_class, superclass};
pub(crate) use code::{JMP, LOAD_K, LOAD_NIL, MOVE, RETURN, SET_GLOBAL};
pub use enhanced_for_stmt::{end_for_in, head_for_in, open_for_in};
pub use fn_stmt::{end_fun, open_fun};
pub use function_expr::{end_function, open_function};
pub use if_stmt::{end_branch, end_if};
pub use let_stmt::{let_only, new_global};
pub use literal_expr::literal;
pub use logical_expr::end_logical;
pub use loops::end_loop;
pub use names::declare;
pub use return_stmt::{end_return, return_none};
pub use try_catch_stmt::{end_try, end_try_body, open_catch, open_try_body};
pub use variable_expr::variable;
