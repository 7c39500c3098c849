ghost use Rattle.std.specs.Prelude.{◌≤◌, ◌^◌, length};
ghost use Rattle.cx_cname.specs.Known.{known_of};
ghost use Rattle.cx_tparse.specs.Parsing.{Parses};

use crate::fault::ParseFault;
use cx_ctree::Unit;
use cx_lex::lex;
use cx_tdeep::first_deep;
use cx_titem::surface;
use cx_tsyn::Surface;
use cx_tword::type_lexemes;
use std::alloc::Global;

/// The only tree of the text of a type file, where the types of C are of what the unit declares, or its
/// first fault: of its tokens, else of the depth of its brackets, else the first token that cannot go on.
#[tactic(auto, using(crate::proofs::Laws::parsed, crate::proofs::Laws::deep, crate::proofs::Laws::stopped, crate::proofs::Laws::lexical, crate::proofs::Laws::stopped_of, crate::proofs::Laws::lexical_of))]
pub fn parse(alloc: Global, bytes: &[u8], unit: &Unit) -> Result<Surface, ParseFault>
    requires few { length bytes.now ≤ 2 ^ 24 }
    ensures { Parses unit.now.names (known_of unit.now) bytes.now result }
{
    let tokens = lex(alloc, bytes)?;
    let lexemes = type_lexemes(alloc, &unit.names, bytes, tokens.as_slice())?;
    match first_deep(alloc, lexemes.as_slice())? {
        Some(o) => Err(ParseFault::TooDeep(o.span)),
        None => {
            let tree = surface(alloc, bytes, unit, lexemes.as_slice())?;
            Ok(tree)
        }
    }
}
