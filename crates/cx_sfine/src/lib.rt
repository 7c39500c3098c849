//! That the typed tree of a function is one that can be lowered.
#![tactic(auto)]

mod law;

pub use law::typed_is_fine;
