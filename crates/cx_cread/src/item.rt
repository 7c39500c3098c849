ghost use Rattle.std.specs.Prelude.{◌≡◌, ◌≤◌, ◌+◌, ◌^◌, [], ◌∷◌, length, map, IfOk, IfSome, IfNone};
ghost use Rattle.cx_ctree.specs.Decls.{decl_tree, function_tree, function as function_declared};
ghost use Rattle.cx_ctree.specs.Units.{unit_tree};
ghost use Rattle.cx_cname.specs.Known.{known_of, earlier_of};
ghost use Rattle.cx_cread.specs.Reads.{IsItem};
ghost use Rattle.cx_cread.specs.Reading.{IsNoItem, with_known};

use crate::declaration::declaration;
use crate::definition::definition;
use cx_base::{List, NoMemory};
use cx_ctree::{Decl, Function, Unit};
use cx_cword::Lexeme;
use std::alloc::Global;

fn with_body(alloc: Global, function: Function) -> Result<List<Decl>, NoMemory>
    ensures { IfOk result (λ ds. map decl_tree ds ≡ function_declared (function_tree function) ∷ []) }
{
    let mut declared = List::new(alloc);
    declared.push(Decl::Body(function))?;
    Ok(declared)
}

/// Reads an item: a declaration, or a function with its body. The unit gets the tags, types and
/// constants that it declares; where no item is derived, the unit is as it was.
pub fn item(
    alloc: Global,
    lexemes: &[Lexeme],
    known: &mut Unit,
) -> Result<Option<List<Decl>>, NoMemory>
    requires { length known.old.tags + length lexemes.now ≤ 2 ^ 24 }
    ensures some { IfOk result (λ r. IfSome r (λ ds. IsItem (earlier_of known.old) (known_of known.old) lexemes.now (map decl_tree ds) (known_of known.new))) }
    ensures none { IfOk result (λ r. IfNone r (IsNoItem (earlier_of known.old) (known_of known.old) lexemes.now)) }
    ensures unchanged { IfOk result (λ r. IfNone r (unit_tree known.new ≡ unit_tree known.old)) }
    ensures kept { unit_tree known.new ≡ with_known (unit_tree known.old) (known_of known.new) }
    ensures few { length known.new.tags ≤ length known.old.tags + length lexemes.now }
{
    match declaration(alloc, lexemes, known)? {
        Some(declared) => Ok(Some(declared)),
        None => match definition(alloc, lexemes, known)? {
            Some(function) => Ok(Some(with_body(alloc, function)?)),
            None => Ok(None),
        },
    }
}
