// Which functions have a body (C11 6.9.1).

ghost use Rattle.std.specs.Prelude.{◌≡◌, [], ◌∷◌, map};
ghost use Rattle.std.specs.List.{list_any};
ghost use Rattle.cx_ctree.specs.Decls.{decl_tree, item_tree};
ghost use Rattle.cx_cname.specs.Known.{declared_by};
ghost use Rattle.cx_cread.specs.Reads as spec;

use cx_ctree::{Decl, Item};

fn is_body_of(n: u32, decl: &Decl) -> bool
    ensures { result ≡ spec.is_body_of n (decl_tree decl.now) }
{
    match decl {
        Decl::Body(f) => f.sig.name == n,
        Decl::Types | Decl::Object(_, _) | Decl::Proto(_) => false,
    }
}

fn some_body_of(n: u32, decls: &[Decl]) -> bool
    ensures { result ≡ list_any (spec.is_body_of n) (map decl_tree decls.now) }
{
    let mut rest = decls;
    while let [decl, after @ ..] = rest {
        if is_body_of(n, decl) {
            return true;
        }
        rest = after;
    }
    false
}

#[tactic(auto, using(crate::proofs::Bodies::any_known))]
fn item_has_body(n: u32, item: &Item) -> bool
    ensures { result ≡ list_any (spec.is_body_of n) (declared_by (item_tree item.now ∷ [])) }
{
    match item {
        Item::Known(decls) => some_body_of(n, decls.as_slice()),
        Item::Passed(_) => false,
    }
}

/// Whether one of the items is the function of this name with its body.
#[tactic(auto, using(crate::proofs::Bodies::any_items))]
pub fn has_body(n: u32, items: &[Item]) -> bool
    ensures { result ≡ list_any (spec.is_body_of n) (declared_by (map item_tree items.now)) }
{
    let mut rest = items;
    while let [item, after @ ..] = rest {
        if item_has_body(n, item) {
            return true;
        }
        rest = after;
    }
    false
}
