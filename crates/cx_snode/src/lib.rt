//! Expressions of C whose parts have their types: the type of each, or the rule on types that it
//! breaks (C11 6.5).
#![tactic(auto)]

mod fault;
mod node;
mod rule;

pub use fault::SemaFault;
pub use node::{
    address_node, arrow_node, binary_node, cast_node, cond_node, deref_node, index_node,
    member_node, number_node, size_node, size_of_node, unary_node,
};
