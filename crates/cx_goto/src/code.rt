use cx_base::{CInt, List, Span};
use cx_ctree::CType;

/// An operator on two numbers of one type; the count of a shift is any number.
#[derive(Clone, Copy, Debug, PartialEq, Eq)]
pub enum Op {
    Add,
    Sub,
    Mul,
    Div,
    Rem,
    And,
    Or,
    Xor,
    Shl,
    Shr,
}

/// A relation of two numbers.
#[derive(Clone, Copy, Debug, PartialEq, Eq)]
pub enum Rel {
    Eq,
    Ne,
    Lt,
    Le,
    Gt,
    Ge,
}

/// What a line does. Locals are numbers, parameters first; a read of one that is unset is a fault.
#[derive(Debug, Drop)]
pub enum Instr {
    /// Sets a local to a number.
    Const(u32, i128),
    /// Sets a local to another's number.
    Copy(u32, u32),
    /// Makes a local unset.
    Unset(u32),
    /// Sets a local to the address of the object of the file with this name, which is 0 where the type
    /// file does not declare it.
    Global(u32, u32),
    /// Sets a local to what the operator gives for two locals, wrapped to the type, or is a fault.
    Bin(u32, Op, CInt, u32, u32),
    /// Wraps a local to the type.
    Conv(u32, CInt),
    /// Sets the first local to the number of the type at the address in the last.
    Load(u32, CInt, u32),
    /// Puts the low bytes of the last local's number at the address in the other.
    Store(CInt, u32, u32),
    /// Calls the function or allocator of this name, and sets `dest` to what it gives, if it gives
    /// anything. `pointee` is the type to a pointer to which the result is converted, where it is taken
    /// as a pointer.
    Call {
        dest: u32,
        name: u32,
        args: List<u32>,
        pointee: Option<CType>,
    },
}

/// A line of a block, with the place of the text that it comes from.
#[derive(Debug, Drop)]
pub struct Line {
    pub instr: Instr,
    pub span: Span,
}

/// How a block ends.
#[derive(Clone, Copy, Debug, PartialEq, Eq)]
pub enum End {
    /// Goes on with another block.
    Jump(u32),
    /// Goes to the first block where the relation stands between the two locals, else to the second.
    Branch(Rel, u32, u32, u32, u32),
    /// The function gives the local's number, or nothing.
    Return(Option<u32>),
    /// The end of a function that has a result and did not return one: a fault.
    Missing,
}

/// Lines that are done one after the other.
#[derive(Debug, Drop)]
pub struct Block {
    /// Where the block is entered, the locals from this number on become unset.
    pub keep: u32,
    pub lines: List<Line>,
    pub end: End,
    /// The place of the text that the end comes from.
    pub span: Span,
}

/// The code of a function. A run begins with the first block.
#[derive(Debug, Drop)]
pub struct Code {
    /// The place of the function's name.
    pub name_span: Span,
    /// How many of the locals are parameters; they come first.
    pub params: u32,
    /// How many are parameters or declared in the function; the others are temporaries.
    pub named: u32,
    pub locals: u32,
    /// The type of the result, if there is one.
    pub result: Option<CInt>,
    pub blocks: List<Block>,
}
