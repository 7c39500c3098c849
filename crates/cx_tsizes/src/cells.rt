ghost use Rattle.std.specs.Prelude.{◌≡◌};
ghost use Rattle.cx_ctree.specs.Types.{type_tree};
ghost use Rattle.cx_tsyn.specs.Cells.{cell_tree, cell_kind_tree};
ghost use Rattle.cx_tmeasure.specs.Views.{known_of};
ghost use Rattle.cx_tsizes.specs.BadSizes as spec;

use cx_ctree::CType;
use cx_tmeasure::{Known, is_scalar, size_in, size_of_kind};
use cx_tsyn::{SCell, SCellKind};

fn is_unsigned(t: &CType) -> bool
    ensures { result ≡ spec.is_unsigned (type_tree t.now) }
{
    match t {
        CType::Void => true,
        CType::Int(number) => !number.signed,
        CType::Ptr(_) => true,
        CType::Array(_, _) => true,
        CType::Tag(_) => true,
    }
}

fn sign_is_right(t: &CType, kind: &SCellKind) -> bool
    ensures { result ≡ spec.sign_is_right (type_tree t.now) (cell_kind_tree kind.now) }
{
    match kind {
        SCellKind::Any => true,
        SCellKind::AnyBytes(_) => true,
        SCellKind::Val(_) => true,
        SCellKind::Unsigned(_, _) => is_unsigned(t),
        SCellKind::Signed(_, _) => !is_unsigned(t),
        SCellKind::Ptr {
            name: _,
            args: _,
            off: _,
            null: _,
        } => is_unsigned(t),
    }
}

fn same_size(size: Option<u64>, n: u64) -> bool
    ensures { result ≡ spec.same_size size n }
{
    match size {
        None => false,
        Some(size) => size == n,
    }
}

/// Whether the cell fits a parameter or result of this type.
pub fn cell_is_right(known: &Known, t: &CType, cell: &SCell) -> bool
    ensures { result ≡ spec.cell_is_right (known_of known.now) (type_tree t.now) (cell_tree cell.now) }
{
    if !is_scalar(t) {
        return false;
    }
    if !same_size(
        size_in(known, Some(t)),
        size_of_kind(known, Some(t), &cell.kind),
    ) {
        return false;
    }
    sign_is_right(t, &cell.kind)
}
