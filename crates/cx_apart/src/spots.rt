use cx_term::Term;

/// The `size` bytes from the symbol plus `at` on.
#[derive(Drop)]
pub struct Spot {
    pub sym: u32,
    pub at: Term,
    pub size: u8,
}
