ghost use Rattle.std.specs.Prelude.{◌≡◌, ◌≤◌, ◌^◌, length, All, IfOk};
ghost use Rattle.cx_citem.specs.Numbering.{numbering};

use cx_base::{Names, NoMemory, Token, TokenKind};
use std::alloc::Global;

/// The numbering of all names of a text, keywords included, by first sight.
pub fn number_names(alloc: Global, bytes: &[u8], tokens: &[Token]) -> Result<Names, NoMemory>
    requires inside { All (λ t. t.span.past ≤ length bytes.now) tokens.now }
    requires few { length tokens.now ≤ 2 ^ 24 }
    ensures { IfOk result (λ names. names ≡ numbering bytes.now tokens.now) }
{
    let mut names = Names::new(alloc)?;
    for token in tokens {
        if token.kind == TokenKind::Name {
            names.number(&bytes[token.span.first as usize..token.span.past as usize])?;
        }
    }
    Ok(names)
}
