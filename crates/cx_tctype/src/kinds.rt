// What a lexeme can be at each place of a type of C.

ghost use Rattle.std.specs.Prelude.{◌≡◌};
ghost use Rattle.cx_cexpr.specs.Kinds as spec;

use cx_cword::{Keyword, LexemeKind};

pub fn is_skipped(kind: LexemeKind) -> bool
    ensures { result ≡ spec.is_skipped kind }
{
    match kind {
        LexemeKind::Keyword(Keyword::Skipped) => true,
        _ => false,
    }
}
