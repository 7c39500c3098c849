//! How many blocks code starts, and what lowering looks up of operators and functions.
#![tactic(auto)]

mod count;
mod last;
mod sort;
mod table;

pub use count::{
    all_labels_starts, all_starts, alone_starts, condition_starts, effect_starts, effects_starts,
    groups_starts, initial_starts, labels_starts, left_starts, place_starts, plus, right_starts,
    stmt_starts, stmts_starts, test_starts, val_starts,
};
pub use last::{
    all_labels_last, condition_last, effect_last, effects_last, groups_last, labels_last,
    right_last, stmt_last, stmts_last, test_last, val_last,
};
pub use sort::{Sort, op_of, rel_of, sort_of};
pub use table::{number_given, params_of};
