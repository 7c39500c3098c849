ghost use Rattle.std.specs.Prelude.{◌≡◌};
ghost use Rattle.cx_cname.specs.Known.{known_of};
ghost use Rattle.cx_cconst.specs.Walk.{scalar_tree};
ghost use Rattle.cx_cconst.specs.Constants as spec;
ghost use Rattle.cx_ctree.specs.Conversions as types;

use crate::conversion::{common, promoted, signed_long, unsigned_long};
use crate::number::{convert, difference, moved, operated, wide};
use crate::scalar::{Scalar, unit_of};
use cx_base::CInt;
use cx_ctree::{Binary, Unit};

fn is_shift(op: Binary) -> bool
    ensures { result ≡ spec.is_shift op }
{
    match op {
        Binary::Shl | Binary::Shr => true,
        Binary::Mul | Binary::Div | Binary::Rem | Binary::Add | Binary::Sub => false,
        Binary::Lt | Binary::Gt | Binary::Le | Binary::Ge | Binary::Eq | Binary::Ne => false,
        Binary::BitAnd | Binary::BitXor | Binary::BitOr | Binary::And | Binary::Or => false,
    }
}

fn integers_value(op: Binary, t: CInt, w: CInt, x: i128, y: i128) -> Option<i128>
    ensures { result ≡ spec.integers_value op t w x y }
{
    if is_shift(op) {
        let left = promoted(t);
        operated(op, left, convert(left, x), convert(promoted(w), y))
    } else {
        let both = common(t, w);
        operated(op, both, convert(both, x), convert(both, y))
    }
}

fn addresses_value(op: Binary, x: i128, y: i128) -> Option<i128>
    ensures { result ≡ spec.operated op types.unsigned_long (spec.converted types.unsigned_long x) (spec.converted types.unsigned_long y) }
{
    let address = unsigned_long();
    operated(op, address, convert(address, x), convert(address, y))
}

fn distance(unit: Option<u64>, p: i128, q: i128) -> Option<i128>
    ensures { result ≡ spec.distance unit p q }
{
    let size = wide(unit?);
    operated(
        Binary::Div,
        signed_long(),
        difference(signed_long(), p, q),
        size,
    )
}

/// What the operator gives for two values of these types.
pub fn binary_value(
    known: &Unit,
    op: Binary,
    t: Scalar<'_>,
    w: Scalar<'_>,
    x: i128,
    y: i128,
) -> Option<i128>
    ensures { result ≡ spec.binary_value (known_of known.now) op (scalar_tree t.entry) (scalar_tree w.entry) x y }
{
    match (t, w) {
        (Scalar::Int(t), Scalar::Int(w)) => integers_value(op, t, w, x, y),
        (Scalar::Ptr(t), Scalar::Int(_)) => match op {
            Binary::Add => moved(unit_of(known, t), x, y, true),
            Binary::Sub => moved(unit_of(known, t), x, y, false),
            _ => addresses_value(op, x, y),
        },
        (Scalar::Int(_), Scalar::Ptr(w)) => match op {
            Binary::Add => moved(unit_of(known, w), y, x, true),
            _ => addresses_value(op, x, y),
        },
        (Scalar::Ptr(t), Scalar::Ptr(_)) => match op {
            Binary::Sub => distance(unit_of(known, t), x, y),
            _ => addresses_value(op, x, y),
        },
    }
}
