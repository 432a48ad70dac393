// Where the nodes of a tree stand, and what a node of each kind holds, by name. The functions are called with a tree that the check has accepted.
#![tactic(auto)]

mod expressions;
mod offsets;
mod statements;
mod words;

pub use expressions::{
    Binary, Call, Function, Unary, binary_of, call_of, function_of, logical_of, unary_of,
    variable_of,
};
pub use offsets::{count_of, payload_of, tag_of};
pub use statements::{
    Class, Define, Elif, For, ForIn, If, Let, Return, Try, While, class_of, define_of, elif_of,
    expr_stmt_of, for_in_of, for_of, if_of, initializer_end, jump_of, let_of, return_of, try_of,
    while_of,
};
pub use words::{child, pair};
