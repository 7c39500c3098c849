ghost use Rattle.std.specs.Prelude.{◌≡◌, ◌++◌, map, option_map};
ghost use Rattle.cx_ctree.specs.Types.{type_tree};
ghost use Rattle.cx_ctree.specs.Decls.{decl_tree, item_tree, param_tree, signature_tree};
ghost use Rattle.cx_cname.specs.Known.{known_of, earlier_of, declared_by, a_type, an_object, function_type};
ghost use Rattle.cx_cname.specs.Meanings as test;

use crate::look_up::{constant_of, typedef_of};
use cx_ctree::{CType, Decl, Item, Param, Signature, Unit};

fn same_type(a: &CType, b: &CType) -> bool
    ensures { result ≡ test.same_type (type_tree a.now) (type_tree b.now) }
{
    a.same(b)
}

/// Whether the parameters have the same types.
fn same_types(a: &[Param], b: &[Param]) -> bool
    ensures { result ≡ test.same_types (map (λ p. p.ctype) (map param_tree a.now)) (map (λ p. p.ctype) (map param_tree b.now)) }
{
    let mut rest = a;
    let mut others = b;
    while let [p, after @ ..] = rest {
        let [q, others_after @ ..] = others else {
            return false;
        };
        if !same_type(&p.ctype, &q.ctype) {
            return false;
        }
        rest = after;
        others = others_after;
    }
    others.is_empty()
}

fn same_function(a: &Signature, b: &Signature) -> bool
    ensures { result ≡ test.same_meaning (function_type (signature_tree a.now)) (function_type (signature_tree b.now)) }
{
    if !same_type(&a.result, &b.result) {
        return false;
    }
    same_types(a.params.as_slice(), b.params.as_slice())
}

fn declares(decl: &Decl, n: u32) -> bool
    ensures { result ≡ test.declares n (decl_tree decl.now) }
{
    match decl {
        Decl::Types => false,
        Decl::Object(m, _) => *m == n,
        Decl::Proto(s) => s.name == n,
        Decl::Body(f) => f.sig.name == n,
    }
}

/// The first of the declarations that is one of this name.
fn found_in(decls: &[Decl], n: u32) -> Option<&Decl>
    ensures { option_map (λ d. decl_tree d.now) result ≡ test.found n (map decl_tree decls.now) }
{
    let mut rest = decls;
    while let [decl, after @ ..] = rest {
        if declares(decl, n) {
            return Some(decl);
        }
        rest = after;
    }
    None
}

/// The first declaration of this name in the items.
#[tactic(auto, using(crate::proofs::Same::found_both, crate::proofs::Same::found_after))]
fn found_items(items: &[Item], n: u32) -> Option<&Decl>
    ensures { option_map (λ d. decl_tree d.now) result ≡ test.found n (declared_by (map item_tree items.now)) }
{
    let mut rest = items;
    while let [item, after @ ..] = rest {
        match item {
            Item::Known(decls) => match found_in(decls.as_slice(), n) {
                Some(decl) => return Some(decl),
                None => {}
            },
            Item::Passed(_) => {}
        }
        rest = after;
    }
    None
}

/// The first declaration of this name in the unit and then in those that follow it.
#[tactic(auto, using(crate::proofs::Same::found_both, crate::proofs::Same::found_after))]
fn found<'a>(known: &'a Unit, earlier: &'a [Decl], n: u32) -> Option<&'a Decl>
    ensures { option_map (λ d. decl_tree d.now) result ≡ test.found n (earlier_of known.now ++ map decl_tree earlier.now) }
{
    match found_items(known.items.as_slice(), n) {
        Some(decl) => Some(decl),
        None => found_in(earlier, n),
    }
}

/// Whether the name is declared neither in the unit nor by the declarations that follow it.
#[tactic(auto, using(crate::proofs::Same::declared_is))]
pub fn is_new(known: &Unit, earlier: &[Decl], n: u32) -> bool
    ensures { result ≡ test.is_new (known_of known.now) (earlier_of known.now ++ map decl_tree earlier.now) n }
{
    if typedef_of(known, n).is_some() || constant_of(known, n).is_some() {
        return false;
    }
    match found(known, earlier, n) {
        None | Some(Decl::Types) => true,
        Some(Decl::Object(_, _)) | Some(Decl::Proto(_)) | Some(Decl::Body(_)) => false,
    }
}

/// Whether the name is new, or declared as this type.
#[tactic(auto, using(crate::proofs::Same::declared_is))]
pub fn may_be_type(known: &Unit, earlier: &[Decl], n: u32, ctype: &CType) -> bool
    ensures { result ≡ test.may_be (known_of known.now) (earlier_of known.now ++ map decl_tree earlier.now) n (a_type (type_tree ctype.now)) }
{
    match typedef_of(known, n) {
        Some(old) => same_type(old, ctype),
        None => is_new(known, earlier, n),
    }
}

/// Whether the name is new, or declared as an object of this type.
#[tactic(auto, using(crate::proofs::Same::declared_is))]
pub fn may_be_object(known: &Unit, earlier: &[Decl], n: u32, ctype: &CType) -> bool
    ensures { result ≡ test.may_be (known_of known.now) (earlier_of known.now ++ map decl_tree earlier.now) n (an_object (type_tree ctype.now)) }
{
    if typedef_of(known, n).is_some() || constant_of(known, n).is_some() {
        return false;
    }
    match found(known, earlier, n) {
        None | Some(Decl::Types) => true,
        Some(Decl::Object(_, old)) => same_type(old, ctype),
        Some(Decl::Proto(_)) | Some(Decl::Body(_)) => false,
    }
}

/// Whether the name is new, or declared as a function of this type.
#[tactic(auto, using(crate::proofs::Same::declared_is))]
pub fn may_be_function(known: &Unit, earlier: &[Decl], sig: &Signature) -> bool
    ensures { result ≡ test.may_be (known_of known.now) (earlier_of known.now ++ map decl_tree earlier.now) sig.now.name (function_type (signature_tree sig.now)) }
{
    if typedef_of(known, sig.name).is_some() || constant_of(known, sig.name).is_some() {
        return false;
    }
    match found(known, earlier, sig.name) {
        None | Some(Decl::Types) => true,
        Some(Decl::Object(_, _)) => false,
        Some(Decl::Proto(old)) => same_function(old, sig),
        Some(Decl::Body(old)) => same_function(&old.sig, sig),
    }
}
