//! The code of the parts of statements, made line by line.
#![tactic(auto)]

mod part;

pub use part::{
    default_block, emit_all_labels, emit_condition, emit_declare, emit_effects, emit_return,
    first_token,
};
