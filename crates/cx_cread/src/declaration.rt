// Declarations without a body (C11 6.7).

ghost use Rattle.std.specs.Prelude.{◌≡◌, ◌≤◌, ◌+◌, ◌^◌, length, map, IfOk, IfSome, IfNone};
ghost use Rattle.cx_ctree.specs.Decls.{decl_tree};
ghost use Rattle.cx_ctree.specs.Units.{unit_tree};
ghost use Rattle.cx_cname.specs.Known.{known_of, earlier_of};
ghost use Rattle.cx_cdecl.specs.Declarations.{IsDeclaration};
ghost use Rattle.cx_cread.specs.Reading.{IsNoDeclaration, with_known};

use cx_base::{List, NoMemory};
use cx_cdecl::front::whole;
use cx_ctree::{Decl, Unit};
use cx_cword::Lexeme;
use std::alloc::Global;

/// Reads a declaration. The unit gets the tags, types and constants that it declares; where no
/// declaration is derived, the unit is as it was.
pub fn declaration(
    alloc: Global,
    lexemes: &[Lexeme],
    known: &mut Unit,
) -> Result<Option<List<Decl>>, NoMemory>
    requires { length known.old.tags + length lexemes.now ≤ 2 ^ 24 }
    ensures some { IfOk result (λ r. IfSome r (λ ds. IsDeclaration (earlier_of known.old) (known_of known.old) lexemes.now (map decl_tree ds) (known_of known.new))) }
    ensures none { IfOk result (λ r. IfNone r (IsNoDeclaration (earlier_of known.old) (known_of known.old) lexemes.now)) }
    ensures unchanged { IfOk result (λ r. IfNone r (unit_tree known.new ≡ unit_tree known.old)) }
    ensures kept { unit_tree known.new ≡ with_known (unit_tree known.old) (known_of known.new) }
    ensures few { length known.new.tags ≤ length known.old.tags + length lexemes.now }
{
    whole(alloc, known, 16 * lexemes.len() + 64, lexemes)
}
