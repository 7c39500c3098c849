//! What every crate of Codex stands on: integer types of C, spans and places of a text, tokens, lists,
//! names, memory, and what stops a run.
#![tactic(auto)]

mod bytes;
mod fault;
mod list;
mod memory;
mod names;
mod number;
mod place;
mod span;
mod token;

pub use fault::FaultKind;
pub use list::{List, NoMemory};
pub use memory::{AddFault, Memory, Region};
pub use names::Names;
pub use number::{CInt, fits, wrap};
pub use place::{place_after, place_of};
pub use span::Span;
pub use token::{Token, TokenKind};
