use crate::lin::Lin;
use crate::word::Word;
use cx_base::{List, Span};

/// A cell: bytes that hold one number or address, or anything.
#[derive(Debug, Drop)]
pub struct SCell {
    /// From its first to its last token.
    pub span: Span,
    /// What it holds.
    pub kind: SCellKind,
}

/// What a cell holds.
#[derive(Debug, Drop)]
pub enum SCellKind {
    /// `any`: any bytes, as many as its member, parameter or result of C has.
    Any,
    /// `anyK`: any K bytes.
    AnyBytes(u32),
    /// `val e`: the number `e`, with the size and sign of its member, parameter or result of C.
    Val(Lin),
    /// `uK e`: the number `e` as an unsigned number of K bytes.
    Unsigned(u8, Lin),
    /// `sK e`: the number `e` as a signed number of K bytes.
    Signed(u8, Lin),
    /// `ptr N(args) + off null`: an address in a region.
    Ptr {
        /// The name of the region.
        name: Word,
        /// The arguments of the region in order, none where no parentheses stand.
        args: List<Lin>,
        /// How many bytes past the region's base it is; None where no offset stands.
        off: Option<Lin>,
        /// Whether it may also be 0.
        null: bool,
    },
}
