//! What a run of a C function acts on: memory, what others do to it, what callees answer, and what has
//! been done so far. Both the meaning of C and the step of block code are said in these words.
#![tactic(auto)]

mod law;

pub use law::{accesses_lie_inside, only_shared_change};
