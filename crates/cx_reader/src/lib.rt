//! What a reader of lexemes answers: what it read, or how many lexemes are left from the first on that
//! cannot go on. The definitions and lemmas are the same for lexemes of any kind.
#![tactic(auto)]

mod items;
mod read;
mod stop;

pub use items::{Items, listed};
pub use read::{Read, front, split};
pub use stop::Stop;
