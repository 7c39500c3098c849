use cx_base::{List, Span};

/// A name in a text, with the place where it stands.
#[derive(Debug, Drop)]
pub struct Word {
    pub span: Span,
    pub text: List<u8>,
}

/// The C type of a member, a parameter or a result.
#[derive(Debug, Drop)]
pub enum ValueType {
    /// `unsigned long`
    UnsignedLong,
    /// `struct NAME *`
    Pointer(Word),
}

/// A member of a struct: `unsigned long NAME;` or `struct NAME *NAME;`.
#[derive(Debug, Drop)]
pub struct Member {
    pub ctype: ValueType,
    pub name: Word,
}

/// `struct NAME { .. };` with its members in order.
#[derive(Debug, Drop)]
pub struct Struct {
    pub name: Word,
    pub members: List<Member>,
}

/// A parameter of the function.
#[derive(Debug, Drop)]
pub struct Parameter {
    pub ctype: ValueType,
    pub name: Word,
}

/// A statement of the function's body.
#[derive(Debug, Drop)]
pub enum Statement {
    /// `target = pointer->member;`
    Load {
        target: Word,
        pointer: Word,
        member: Word,
    },
    /// `pointer->member = value;`
    Store {
        pointer: Word,
        member: Word,
        value: Word,
    },
}

/// The `return` at the end of a body.
#[derive(Debug, Drop)]
pub struct Ending {
    /// From the word `return` to the `;`.
    pub span: Span,
    /// The variable whose value is returned.
    pub value: Option<Word>,
}

/// The function of the C file.
#[derive(Debug, Drop)]
pub struct Function {
    /// The type of the result; None for `void`.
    pub result: Option<ValueType>,
    pub name: Word,
    /// In order; none for `(void)`.
    pub parameters: List<Parameter>,
    pub body: List<Statement>,
    pub ending: Option<Ending>,
}

/// A C file of the form.
#[derive(Debug, Drop)]
pub struct CFile {
    pub structs: List<Struct>,
    pub function: Option<Function>,
}

/// What the type file says of an argument or a result.
#[derive(Debug, Drop)]
pub enum Argument {
    /// `any`
    Any,
    /// `ptr NAME`, the base of a region of that name.
    Pointer(Word),
}

/// `NAME: any8;` or `NAME: ptr NAME;`, the type of one member.
#[derive(Debug, Drop)]
pub struct Cell {
    pub member: Word,
    pub holds: Argument,
}

/// `region NAME = struct NAME { .. };`
#[derive(Debug, Drop)]
pub struct RegionType {
    pub name: Word,
    pub tag: Word,
    pub cells: List<Cell>,
}

/// `fn NAME(..) -> ..;`
#[derive(Debug, Drop)]
pub struct FunctionType {
    pub name: Word,
    pub arguments: List<Argument>,
    /// What the result holds; None for `void`.
    pub result: Option<Argument>,
}

/// A type file of the form.
#[derive(Debug, Drop)]
pub struct TypeFile {
    pub regions: List<RegionType>,
    pub function: Option<FunctionType>,
}
