//! How many locals code uses.
#![tactic(auto)]

mod need;
mod number;

pub use need::{
    alone_need, call_need, effect_need, effects_need, initial_need, left_need, place_need,
    right_need, stmt_need, stmts_need, test_need, val_need,
};
