use crate::cell::CellKind;
use cx_base::List;
use cx_ctree::CType;
use cx_term::Ineq;

/// The type of a function's result: the value holds the cell, for some values of the result's own
/// binders at which the conditions are true. Their symbols begin after the function's.
#[derive(Drop)]
pub struct ResultType {
    pub binders: u32,
    pub cell: CellKind,
    pub conds: List<Ineq>,
}

/// The type of a function of this name: the arguments hold the cells, for some values of the binders
/// at which the conditions are true.
#[derive(Drop)]
pub struct FnType {
    pub name: u32,
    pub binders: u32,
    pub args: List<CellKind>,
    pub conds: List<Ineq>,
    /// None where the function gives no value.
    pub result: Option<ResultType>,
}

/// An argument of the region type of an allocator's block.
#[derive(Clone, Copy, Debug, PartialEq, Eq)]
pub enum AllocArg {
    Number(i128),
    /// The argument of the call at this place.
    Param(u32),
    /// The argument of the call at this place, divided by the number without a remainder.
    Over(u32, u64),
}

/// The type of an allocator's call whose result is converted to a pointer to `pointee`: it gives null
/// or the base of a new region.
#[derive(Drop)]
pub struct AllocType {
    pub name: u32,
    /// How many arguments a call has.
    pub params: u32,
    pub pointee: CType,
    /// The place of the new region's type.
    pub region: u32,
    pub args: List<AllocArg>,
    /// The place of the argument that is the number of bytes.
    pub bytes: u32,
    /// The place of the argument that multiplies it.
    pub times: Option<u32>,
    /// Whether all bytes of a new region are 0.
    pub zero: bool,
}

/// The region of a global object of this name: its type's place and arguments.
#[derive(Drop)]
pub struct GlobalType {
    pub name: u32,
    pub region: u32,
    pub args: List<i128>,
}
