use crate::cell::SCell;
use crate::lin::Relation;
use crate::stype::SType;
use crate::word::Word;
use cx_base::{List, Span};
use cx_ctree::CType;

/// A type file.
#[derive(Debug, Drop)]
pub struct Surface {
    /// Its items in order.
    pub items: List<TypeItem>,
}

/// An item of a type file.
#[derive(Debug, Drop)]
pub enum TypeItem {
    /// What the bytes of a kind of region hold.
    Region(RegionItem),
    /// The type of a function of C.
    Func(FuncItem),
    /// That a function of C is an allocator.
    Alloc(AllocItem),
    /// The region of an object of C.
    Global(GlobalItem),
}

/// `shared region N(params) = type;`
#[derive(Debug, Drop)]
pub struct RegionItem {
    /// From `shared`, or where it does not stand from `region`, to the semicolon.
    pub span: Span,
    /// Whether others may rewrite the bytes of such regions: whether `shared` stands.
    pub shared: bool,
    /// The name of the region.
    pub name: Word,
    /// The parameters in order, none where no parentheses stand.
    pub params: List<Word>,
    /// The type of the region's bytes.
    pub body: SType,
}

/// `fn f some binders (args) where conds -> result;`
#[derive(Debug, Drop)]
pub struct FuncItem {
    /// From `fn` to the semicolon.
    pub span: Span,
    /// The name of the function.
    pub name: Word,
    /// The names that it declares, in order; none where no `some` stands.
    pub binders: List<Word>,
    /// The cells of the arguments in order.
    pub args: List<SCell>,
    /// The conditions in order, none where no `where` stands.
    pub conds: List<Relation>,
    /// What the function gives; None for `void`.
    pub result: Option<SResult>,
    /// The word `void`, or the whole result from its first to its last token.
    pub result_span: Span,
}

/// What a function gives: `some binders of cell where conds`.
#[derive(Debug, Drop)]
pub struct SResult {
    /// The names that it declares, in order; none where no `some` stands.
    pub binders: List<Word>,
    /// The cell of the value.
    pub cell: SCell,
    /// The conditions in order, none where no `where` stands.
    pub conds: List<Relation>,
}

/// `alloc f(params) for pointee = N(args) bytes k * n zero;`
#[derive(Debug, Drop)]
pub struct AllocItem {
    /// From `alloc` to the semicolon.
    pub span: Span,
    /// The name of the function.
    pub name: Word,
    /// The names of its parameters, in order.
    pub params: List<Word>,
    /// The type of C that its result, converted to a pointer, points to. A struct or union stands by
    /// its place in the tags of the C file's unit.
    pub pointee: CType,
    /// From the first to the last token of that type.
    pub pointee_span: Span,
    /// Where the name of the struct or union in that type stands, if the C file does not name it;
    /// None where it does, or there is none.
    pub unknown_tag: Option<Span>,
    /// The name of the region of a new block.
    pub region: Word,
    /// The arguments of the region in order, none where no parentheses stand.
    pub args: List<SArg>,
    /// The parameter that is the number of bytes.
    pub bytes: Word,
    /// The parameter that multiplies it; None where none does.
    pub times: Option<Word>,
    /// Whether all bytes of a new block are 0.
    pub zero: bool,
}

/// An argument of the region of an allocator's block.
#[derive(Debug, Drop)]
pub enum SArg {
    /// A number.
    Number(i128),
    /// A parameter of the allocator.
    Param(Word),
    /// A parameter of the allocator divided by a number without a remainder, `n / 8`. The span is
    /// that of the number.
    Over(Word, u64, Span),
}

/// `global g = N(args);`
#[derive(Debug, Drop)]
pub struct GlobalItem {
    /// From `global` to the semicolon.
    pub span: Span,
    /// The name of the object.
    pub name: Word,
    /// The name of its region.
    pub region: Word,
    /// The arguments of the region in order, none where no parentheses stand.
    pub args: List<i128>,
}
