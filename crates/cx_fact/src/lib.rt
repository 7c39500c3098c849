//! What an abstract state becomes when it is told what the fact of a symbol means, and when a fact
//! loses its null.
#![tactic(auto)]

mod telling;

pub use telling::{settle, tell, with_fact};
