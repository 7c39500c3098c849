//! Operators by the code that they have.

ghost use Rattle.std.specs.Prelude.{◌≡◌};
ghost use Rattle.cx_lcode.specs.Places as places;
ghost use Rattle.cx_lcode.specs.Values as values;
ghost use Rattle.cx_lsize.specs.Sorts.{sort_tree};

use cx_ctree::Binary;
use cx_goto::{Op, Rel};

/// Operators by the code that they have.
#[derive(Clone, Copy)]
pub enum Sort {
    /// `&&`
    Both,
    /// `||`
    Either,
    Comparing,
    Computing,
}

/// The operator by the code that it has.
pub fn sort_of(op: Binary) -> Sort
    ensures { sort_tree result ≡ places.sort_of op }
{
    match op {
        Binary::And => Sort::Both,
        Binary::Or => Sort::Either,
        Binary::Lt | Binary::Gt | Binary::Le | Binary::Ge => Sort::Comparing,
        Binary::Eq | Binary::Ne => Sort::Comparing,
        Binary::Mul | Binary::Div | Binary::Rem | Binary::Add | Binary::Sub => Sort::Computing,
        Binary::Shl | Binary::Shr | Binary::BitAnd | Binary::BitXor | Binary::BitOr => {
            Sort::Computing
        }
    }
}

/// The operator on numbers.
pub fn op_of(op: Binary) -> Op
    ensures { result ≡ values.op_of op }
{
    match op {
        Binary::Mul => Op::Mul,
        Binary::Div => Op::Div,
        Binary::Rem => Op::Rem,
        Binary::Sub => Op::Sub,
        Binary::BitAnd => Op::And,
        Binary::BitOr => Op::Or,
        Binary::BitXor => Op::Xor,
        Binary::Shl => Op::Shl,
        Binary::Shr => Op::Shr,
        Binary::Add | Binary::And | Binary::Or => Op::Add,
        Binary::Lt | Binary::Gt | Binary::Le | Binary::Ge | Binary::Eq | Binary::Ne => Op::Add,
    }
}

/// The relation on numbers.
pub fn rel_of(op: Binary) -> Rel
    ensures { result ≡ values.rel_of op }
{
    match op {
        Binary::Lt => Rel::Lt,
        Binary::Gt => Rel::Gt,
        Binary::Le => Rel::Le,
        Binary::Ge => Rel::Ge,
        Binary::Eq => Rel::Eq,
        Binary::Ne | Binary::And | Binary::Or => Rel::Ne,
        Binary::Mul | Binary::Div | Binary::Rem | Binary::Add | Binary::Sub => Rel::Ne,
        Binary::Shl | Binary::Shr | Binary::BitAnd | Binary::BitXor | Binary::BitOr => Rel::Ne,
    }
}
