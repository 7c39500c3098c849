// What a lexeme can be at each place of a linear form.

ghost use Rattle.std.specs.Prelude.{◌≡◌};
ghost use Rattle.cx_tlin.specs.Kinds as spec;
ghost use Rattle.cx_tlin.specs.Lins as grammar;

use cx_cword::Punctuator;
use cx_tsyn::SRel;
use cx_tword::{TypeLexeme, TypeLexemeKind, is_mark};

/// Whether the lexeme is a plus or a minus.
pub fn is_sign(lexeme: TypeLexeme) -> bool
    ensures { result ≡ spec.is_sign lexeme }
{
    is_mark(Punctuator::Plus, lexeme) || is_mark(Punctuator::Minus, lexeme)
}

fn compared_by(mark: Punctuator) -> Option<SRel>
    ensures { result ≡ grammar.compared_by mark }
{
    match mark {
        Punctuator::Equal => Some(SRel::Eq),
        Punctuator::NotEqual => Some(SRel::Ne),
        Punctuator::Less => Some(SRel::Lt),
        Punctuator::LessEqual => Some(SRel::Le),
        Punctuator::Greater => Some(SRel::Gt),
        Punctuator::GreaterEqual => Some(SRel::Ge),
        _ => None,
    }
}

/// How the sign compares; None where it is no sign of comparison.
pub fn relation_of(kind: TypeLexemeKind) -> Option<SRel>
    ensures { result ≡ spec.relation_of kind }
{
    match kind {
        TypeLexemeKind::Punctuator(mark) => compared_by(mark),
        _ => None,
    }
}
