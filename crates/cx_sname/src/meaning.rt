ghost use Rattle.std.specs.Prelude.{◌≡◌, map, option_map};
ghost use Rattle.cx_ctree.specs.Decls.{decl_tree, item_tree};
ghost use Rattle.cx_cname.specs.Known.{earlier_of, declared_by, declared_as};
ghost use Rattle.cx_cname.specs.Meanings as test;
ghost use Rattle.cx_sname.specs.File as spec;
ghost use Rattle.cx_sname.specs.Meanings.{meaning_tree};

use cx_cname::{constant_of, typedef_of};
use cx_ctree::{CType, Decl, Item, Signature, Unit};

/// What an ordinary name is declared as (C11 6.2.3).
#[derive(Clone, Copy)]
pub enum Meaning<'a> {
    /// This type.
    Typedef(&'a CType),
    /// An enumeration constant of this value.
    Constant(i128),
    /// An object of this type.
    Object(&'a CType),
    Function(&'a Signature),
}

fn declares(decl: &Decl, n: u32) -> bool
    ensures { result ≡ test.declares n (decl_tree decl.now) }
{
    match decl {
        Decl::Types => false,
        Decl::Object(m, _) => *m == n,
        Decl::Proto(s) => s.name == n,
        Decl::Body(f) => f.sig.name == n,
    }
}

fn found_in(decls: &[Decl], n: u32) -> Option<&Decl>
    ensures { option_map (λ d. decl_tree d.now) result ≡ test.found n (map decl_tree decls.now) }
{
    let mut rest = decls;
    while let [decl, after @ ..] = rest {
        if declares(decl, n) {
            return Some(decl);
        }
        rest = after;
    }
    None
}

/// The first declaration of this name in the items.
#[tactic(auto, using(cx_cname::proofs::Same::found_both, cx_cname::proofs::Same::found_after))]
fn found_items(items: &[Item], n: u32) -> Option<&Decl>
    ensures { option_map (λ d. decl_tree d.now) result ≡ test.found n (declared_by (map item_tree items.now)) }
{
    let mut rest = items;
    while let [item, after @ ..] = rest {
        match item {
            Item::Known(decls) => match found_in(decls.as_slice(), n) {
                Some(decl) => return Some(decl),
                None => {}
            },
            Item::Passed(_) => {}
        }
        rest = after;
    }
    None
}

/// The object or function of this name.
#[tactic(auto, using(cx_cname::proofs::Same::declared_is))]
fn declared(unit: &Unit, n: u32) -> Option<Meaning<'_>>
    ensures { option_map meaning_tree result ≡ declared_as n (earlier_of unit.now) }
{
    match found_items(unit.items.as_slice(), n) {
        None | Some(Decl::Types) => None,
        Some(Decl::Object(_, t)) => Some(Meaning::Object(t)),
        Some(Decl::Proto(s)) => Some(Meaning::Function(s)),
        Some(Decl::Body(f)) => Some(Meaning::Function(&f.sig)),
    }
}

/// What the name is declared as in the file; None where nothing declares it.
pub fn meaning_of(unit: &Unit, n: u32) -> Option<Meaning<'_>>
    ensures { option_map meaning_tree result ≡ spec.meaning_of (spec.declared_of unit.now) n }
{
    if let Some(t) = typedef_of(unit, n) {
        return Some(Meaning::Typedef(t));
    }
    if let Some(v) = constant_of(unit, n) {
        return Some(Meaning::Constant(v));
    }
    declared(unit, n)
}
