ghost use Rattle.std.specs.Prelude.{◌≡◌, map, option_map, is_some};
ghost use Rattle.cx_ctree.specs.Types.{type_tree, tag as tagged};
ghost use Rattle.cx_ctree.specs.Decls.{member_tree};
ghost use Rattle.cx_ctree.specs.Exprs.{expr_tree};
ghost use Rattle.cx_ctree.specs.Layouts as layout;
ghost use Rattle.cx_ctree.specs.Units.{tags_of};
ghost use Rattle.cx_cname.specs.Known.{known_of};
ghost use Rattle.cx_ctype.specs.ValueTypes.{value_tree};
ghost use Rattle.cx_ctype.specs.Accesses as spec;

use crate::value::ValueType;
use cx_abi::size_of;
use cx_ctree::{CType, Expr, ExprKind, Member, Unit};

/// Whether the type has a size.
pub fn is_sized(known: &Unit, ctype: &CType) -> bool
    ensures { result ≡ is_some (layout.size_of (tags_of known.now) (type_tree ctype.now)) }
{
    size_of(known, ctype).is_some()
}

/// What a value of the type points to; None where it is no pointer.
pub fn pointee(t: ValueType<'_>) -> Option<&CType>
    ensures { option_map (λ p. type_tree p.now) result ≡ spec.pointee (value_tree t.entry) }
{
    match t {
        ValueType::Ptr(t) => Some(t),
        ValueType::Void | ValueType::Int(_) | ValueType::Tag(_) => None,
    }
}

/// What the pointer of `a[b]` points to, where one of the two is a pointer and the other an integer.
pub fn element<'a>(t: ValueType<'a>, w: ValueType<'a>) -> Option<&'a CType>
    ensures { option_map (λ p. type_tree p.now) result ≡ spec.element (value_tree t.entry) (value_tree w.entry) }
{
    match (t, w) {
        (ValueType::Ptr(t), ValueType::Int(_)) => Some(t),
        (ValueType::Int(_), ValueType::Ptr(w)) => Some(w),
        (ValueType::Int(_), ValueType::Void | ValueType::Int(_) | ValueType::Tag(_)) => None,
        (ValueType::Ptr(_), ValueType::Void | ValueType::Ptr(_) | ValueType::Tag(_)) => None,
        (ValueType::Void | ValueType::Tag(_), _) => None,
    }
}

fn named_member(members: &[Member], name: u32) -> Option<&CType>
    ensures { option_map (λ t. type_tree t.now) result ≡ spec.named_member name (map member_tree members.now) }
{
    let mut rest = members;
    while let [member, after @ ..] = rest {
        if member.name == name {
            return Some(&member.ctype);
        }
        rest = after;
    }
    None
}

#[tactic(auto, using(crate::proofs::Members::members_at))]
fn members_of(known: &Unit, tag: u32) -> Option<&[Member]>
    ensures { option_map (λ ms. map member_tree ms.now) result ≡ spec.members_of (known_of known.now) (tagged tag) }
{
    match known.tags.get(tag as usize) {
        None => None,
        Some(found) => match &found.members {
            None => None,
            Some(members) => Some(members.as_slice()),
        },
    }
}

/// The type of the member of this name; None where the type is no struct or union with such a
/// member.
pub fn member_type<'a>(known: &'a Unit, ctype: &CType, name: u32) -> Option<&'a CType>
    ensures { option_map (λ t. type_tree t.now) result ≡ spec.member_type (known_of known.now) (type_tree ctype.now) name }
{
    match ctype {
        CType::Tag(tag) => match members_of(known, *tag) {
            None => None,
            Some(members) => named_member(members, name),
        },
        CType::Void | CType::Int(_) | CType::Ptr(_) | CType::Array(_, _) => None,
    }
}

/// Whether the expression is an object in memory (C11 6.5.3.2).
pub fn in_memory(e: &Expr) -> bool
    ensures { result ≡ spec.in_memory (expr_tree e.now) }
{
    match &e.kind {
        ExprKind::Global(_) | ExprKind::Deref(_) => true,
        ExprKind::Index(_, _) | ExprKind::Arrow(_, _) => true,
        ExprKind::Member(a, _) => in_memory(a),
        ExprKind::Num(_, _) | ExprKind::Name(_) | ExprKind::Local(_) => false,
        ExprKind::Unary(_, _) | ExprKind::Binary(_, _, _) | ExprKind::Cond(_, _, _) => false,
        ExprKind::Cast(_, _) | ExprKind::SizeOf(_) | ExprKind::SizeOfExpr(_) => false,
        ExprKind::Address(_) => false,
    }
}
