use crate::ctype::CType;
use crate::extent::Extent;
use crate::stmt::Stmt;
use cx_base::{List, Span};

/// A member of a struct or union.
#[derive(Debug, Drop)]
pub struct Member {
    pub name: u32,
    pub ctype: CType,
}

/// A struct or union type.
#[derive(Debug, Drop)]
pub struct Tag {
    /// None where the text gives it no name.
    pub name: Option<u32>,
    pub union_: bool,
    /// Which declaration of members of the file, counted from 1, declares its members; 0 where
    /// none does.
    pub rank: u32,
    /// None where no members are declared.
    pub members: Option<List<Member>>,
    /// Its size and alignment, of nothing where no members are declared; where it contains, other
    /// than behind a pointer, or is a type of more than 2^31 bytes, the tag of the first such type,
    /// parts before wholes, or 0 for an array.
    pub extent: Result<Extent, u32>,
}

/// A parameter of a function.
#[derive(Debug, Drop)]
pub struct Param {
    pub name: Option<u32>,
    pub ctype: CType,
}

/// A function's name and type.
#[derive(Debug, Drop)]
pub struct Signature {
    pub name: u32,
    pub result: CType,
    pub params: List<Param>,
}

/// A function with its body.
#[derive(Debug, Drop)]
pub struct Function {
    pub sig: Signature,
    pub body: Stmt,
    pub name_span: Span,
}

/// What a declarator, or an item without one, declares.
#[derive(Debug, Drop)]
pub enum Decl {
    /// Types alone.
    Types,
    /// An object of this name and type.
    Object(u32, CType),
    /// A function without its body.
    Proto(Signature),
    /// A function with its body.
    Body(Function),
}

/// An item of a file: what it declares, or the piece of the text that was passed over.
#[derive(Debug, Drop)]
pub enum Item {
    Known(List<Decl>),
    Passed(Span),
}

/// A function whose body has types: each expression has its type, and no `Name` is left.
#[derive(Debug, Drop)]
pub struct Typed {
    pub sig: Signature,
    pub name_span: Span,
    /// The types of the locals, parameters first.
    pub locals: List<CType>,
    pub body: Stmt,
}
