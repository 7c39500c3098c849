//! Opening and closing the regions of a state, and what may lie in the same bytes. What the calls say of a
//! state is true of each memory of which the state stands.
#![tactic(auto)]

mod opening;
mod putting;

pub use cx_apart::{Spot, apart};
pub use cx_close::close;
pub use cx_head::FocusFault;
pub use opening::open;
pub use putting::put_cell;
