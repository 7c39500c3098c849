//! That a function with its types has small numbers where it had them before.
#![tactic(auto)]

mod law;

pub use law::typed_is_small;
