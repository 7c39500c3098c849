use cx_base::List;
use cx_ctree::CType;

/// A member of a struct or union with its place.
#[derive(Debug, Drop)]
pub struct Field {
    pub name: u32,
    /// In bytes from the first byte of the struct or union.
    pub offset: u64,
    pub ctype: CType,
}

/// The layout of a type.
#[derive(Debug, Drop)]
pub struct Layout {
    /// In bytes.
    pub size: u64,
    /// The addresses of the type are multiples of it.
    pub align: u32,
    /// The members of a struct or union in order; none for another type.
    pub fields: List<Field>,
}
