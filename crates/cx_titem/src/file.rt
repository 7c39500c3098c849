ghost use Rattle.std.specs.Prelude.{◌≡◌, ◌<◌, length, Some};
ghost use Rattle.cx_cname.specs.Known.{known_of};
ghost use Rattle.cx_reader.specs.Faults.{lexeme_left};
ghost use Rattle.cx_titem.specs.Answers.{ReadsFile};

use crate::fault::SyntaxFault;
use crate::items::items;
use cx_base::List;
use cx_ctree::Unit;
use cx_reader::Stop;
use cx_tsyn::Surface;
use cx_tword::TypeLexeme;
use std::alloc::Global;

// The lexeme with which so many are left, or the last one.
fn lexeme_left(lexemes: &[TypeLexeme], left: usize) -> TypeLexeme
    requires { 0 < length lexemes.now }
    ensures { lexeme_left lexemes.now left ≡ Some result }
{
    lexemes[lexemes.len().saturating_sub(left.max(1))]
}

/// Reads a whole type file from its lexemes, where `bytes` is its text and the types of C are of what the
/// unit declares. Each bracket that is open takes some of the stack.
pub fn surface(
    alloc: Global,
    bytes: &[u8],
    unit: &Unit,
    lexemes: &[TypeLexeme],
) -> Result<Surface, SyntaxFault>
    ensures { ReadsFile bytes.now (known_of unit.now) lexemes.now result }
{
    if lexemes.len() == 0 {
        return Ok(Surface {
            items: List::new(alloc),
        });
    }
    match items(alloc, bytes, unit, lexemes) {
        Ok(x) => Ok(Surface { items: x.tree }),
        Err(Stop::NoMemory) => Err(SyntaxFault::NoMemory),
        Err(Stop::Unread(left)) => Err(SyntaxFault::Syntax(lexeme_left(lexemes, left).span)),
    }
}
