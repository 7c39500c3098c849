ghost use Rattle.std.specs.Prelude.{◌≡◌, option_map};
ghost use Rattle.cx_ctree.specs.Types.{type_tree};
ghost use Rattle.cx_cname.specs.Known.{known_of};
ghost use Rattle.cx_ctype.specs.ValueTypes.{value_tree};
ghost use Rattle.cx_ctype.specs.Rules as spec;
ghost use Rattle.cx_sfile.specs.Views.{declared_in};
ghost use Rattle.cx_snode.specs.Nodes as nodes;

use cx_cname::is_complete;
use cx_ctree::{Binary, CType, Unary, Unit};
use cx_ctype::{ValueType, element};
use cx_sfile::File;

/// The rule that an operator breaks which does not take its operand.
pub fn unary_rule(op: Unary) -> u8
    ensures { result ≡ spec.unary_rule op }
{
    match op {
        Unary::Not => 14,
        Unary::Plus | Unary::Neg | Unary::Compl => 2,
    }
}

#[tactic(auto, using(crate::proofs::Optional::is_some_map))]
fn sum_rule(t: ValueType<'_>, w: ValueType<'_>) -> u8
    ensures { result ≡ spec.sum_rule (value_tree t.entry) (value_tree w.entry) }
{
    if element(t, w).is_some() { 19 } else { 2 }
}

fn difference_rule(t: ValueType<'_>, w: ValueType<'_>) -> u8
    ensures { result ≡ spec.difference_rule (value_tree t.entry) (value_tree w.entry) }
{
    match (t, w) {
        (ValueType::Ptr(_), ValueType::Int(_)) => 19,
        (ValueType::Ptr(_), ValueType::Void | ValueType::Ptr(_) | ValueType::Tag(_)) => 2,
        (ValueType::Void | ValueType::Int(_) | ValueType::Tag(_), _) => 2,
    }
}

/// The rule that an operator breaks which does not take operands of these types.
pub fn binary_rule(op: Binary, t: ValueType<'_>, w: ValueType<'_>) -> u8
    ensures { result ≡ spec.binary_rule op (value_tree t.entry) (value_tree w.entry) }
{
    match op {
        Binary::Add => sum_rule(t, w),
        Binary::Sub => difference_rule(t, w),
        Binary::Lt | Binary::Gt | Binary::Le | Binary::Ge | Binary::Eq | Binary::Ne => 17,
        Binary::And | Binary::Or => 14,
        Binary::Mul | Binary::Div | Binary::Rem | Binary::Shl | Binary::Shr => 2,
        Binary::BitAnd | Binary::BitXor | Binary::BitOr => 2,
    }
}

/// The rule that is broken where the type has no size.
pub fn size_rule(known: &Unit, ctype: &CType) -> u8
    ensures { result ≡ nodes.size_rule (known_of known.now) (type_tree ctype.now) }
{
    if is_complete(known, ctype) { 19 } else { 13 }
}

/// The rule that is broken where the member of this name has no place.
#[tactic(auto, using(crate::proofs::Optional::is_some_map))]
pub fn member_rule(file: &File<'_>, ctype: &CType, name: u32) -> u8
    ensures { result ≡ nodes.member_rule (declared_in file.now).known (type_tree ctype.now) name }
{
    if file.member_type(ctype, name).is_some() {
        19
    } else {
        4
    }
}

/// The rule that is broken where an index has no element, of which it is told where it is complete.
#[tactic(auto, using(crate::proofs::Optional::is_some_map))]
pub fn index_rule(complete: Option<&CType>) -> u8
    ensures { result ≡ nodes.index_rule (option_map (λ t. type_tree t.now) complete.entry) }
{
    if complete.is_some() { 19 } else { 3 }
}
