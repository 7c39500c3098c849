//! The typing of C functions: `resolve` gives the typed tree of a function, or the first rule on
//! types that it breaks, with its place.
#![tactic(auto)]

mod function;

pub use cx_sfile::{File, file_of};
pub use cx_snode::SemaFault;
pub use function::{resolve, resolve_in};
