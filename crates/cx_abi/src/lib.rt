//! The layout of types of C by the System V AMD64 ABI (3.1.2): sizes, alignments and offsets.
#![tactic(auto)]

mod fault;
mod field;
mod law;
mod measure;
mod placing;

pub use fault::LayoutFault;
pub use field::{Field, Layout};
pub use law::tags_are_by_members;
pub use measure::{extent_with, nothing};
pub use placing::{layout, offset_of, size_of};
