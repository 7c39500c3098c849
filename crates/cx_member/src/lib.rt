//! Whether memory holds its types, and whether calls meet theirs, decided. The values of binders are
//! read off: each is told by a cell, and at most one choice of values can hold.
#![tactic(auto)]

mod answering;
mod binding;
mod cell;
mod form;
mod meeting;
mod part;
mod passing;
mod pointing;
mod region;
mod valued;

pub use answering::answers;
pub use meeting::meets;
pub use region::{holds, typed};
