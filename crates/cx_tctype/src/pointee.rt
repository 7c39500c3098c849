use cx_base::Span;
use cx_ctree::CType;

/// A type of C in a type file.
#[derive(Debug, Drop)]
pub struct Pointee {
    /// The type. A struct or union that the C file does not declare stands as `void`.
    pub ctype: CType,
    /// Where the name of that struct or union stands.
    pub unknown_tag: Option<Span>,
}
