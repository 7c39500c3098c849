ghost use Rattle.std.specs.Prelude.{◌≡◌, false, option_map};
ghost use Rattle.std.specs.Option.{unwrap_or, option_map_or};
ghost use Rattle.cx_ctree.specs.Types.{type_tree};
ghost use Rattle.cx_tsyn.specs.Cells.{cell_tree, cell_kind_tree};
ghost use Rattle.cx_tscope.specs.Faults.{first};
ghost use Rattle.cx_tmeasure.specs.Sizes.{kind_size};
ghost use Rattle.cx_tmeasure.specs.BadTypes as spec;
ghost use Rattle.cx_tmeasure.specs.Views.{known_of};

use crate::known::{Known, size_in};
use cx_base::Span;
use cx_ctree::CType;
use cx_tsyn::{SCell, SCellKind};

/// Whether the type is an integer or a pointer.
pub fn is_scalar(t: &CType) -> bool
    ensures { result ≡ spec.is_scalar (type_tree t.now) }
{
    match t {
        CType::Void => false,
        CType::Int(_) => true,
        CType::Ptr(_) => true,
        CType::Array(_, _) => false,
        CType::Tag(_) => false,
    }
}

fn size_or_none(size: Option<u64>) -> u64
    ensures { result ≡ unwrap_or size 0 }
{
    match size {
        None => 0,
        Some(size) => size,
    }
}

/// How many bytes a cell of this kind takes, for a member, parameter or result of this type of C.
pub fn size_of_kind(known: &Known, m: Option<&CType>, kind: &SCellKind) -> u64
    ensures { result ≡ kind_size (known_of known.now) (option_map (λ t. type_tree t.now) m.entry) (cell_kind_tree kind.now) }
{
    match kind {
        SCellKind::Any => size_or_none(size_in(known, m)),
        SCellKind::AnyBytes(n) => u64::from(*n),
        SCellKind::Val(_) => size_or_none(size_in(known, m)),
        SCellKind::Unsigned(n, _) => u64::from(*n),
        SCellKind::Signed(n, _) => u64::from(*n),
        SCellKind::Ptr {
            name: _,
            args: _,
            off: _,
            null: _,
        } => 8,
    }
}

fn is_some_scalar(m: Option<&CType>) -> bool
    ensures { result ≡ option_map_or spec.is_scalar (option_map (λ t. type_tree t.now) m.entry) false }
{
    match m {
        None => false,
        Some(t) => is_scalar(t),
    }
}

fn kind_is_sized(known: &Known, m: Option<&CType>, kind: &SCellKind) -> bool
    ensures { result ≡ spec.kind_is_sized (known_of known.now) (option_map (λ t. type_tree t.now) m.entry) (cell_kind_tree kind.now) }
{
    match kind {
        SCellKind::Any => size_in(known, m).is_some(),
        SCellKind::AnyBytes(_) => true,
        SCellKind::Val(_) => is_some_scalar(m),
        SCellKind::Unsigned(_, _) => true,
        SCellKind::Signed(_, _) => true,
        SCellKind::Ptr {
            name: _,
            args: _,
            off: _,
            null: _,
        } => true,
    }
}

/// The cell, where it takes its size or sign from C and has none.
pub fn bad_cell(known: &Known, m: Option<&CType>, cell: &SCell) -> Option<Span>
    ensures { result ≡ first (spec.bad_cell (known_of known.now) (option_map (λ t. type_tree t.now) m.entry) (cell_tree cell.now)) }
{
    if kind_is_sized(known, m, &cell.kind) {
        return None;
    }
    Some(cell.span)
}
