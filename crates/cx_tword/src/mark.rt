ghost use Rattle.std.specs.Prelude.{◌≡◌};
ghost use Rattle.cx_tword.specs.Marks as spec;

use crate::lexeme::{TypeLexeme, TypeLexemeKind};
use crate::word::TypeWord;
use cx_cword::Punctuator;

/// Whether the lexeme is this punctuator.
pub fn is_mark(mark: Punctuator, lexeme: TypeLexeme) -> bool
    ensures { result ≡ spec.is_mark mark lexeme }
{
    match lexeme.kind {
        TypeLexemeKind::Punctuator(other) => mark == other,
        _ => false,
    }
}

/// Whether the lexeme is this reserved word.
pub fn is_word(word: TypeWord, lexeme: TypeLexeme) -> bool
    ensures { result ≡ spec.is_word word lexeme }
{
    match lexeme.kind {
        TypeLexemeKind::Word(other) => word == other,
        _ => false,
    }
}

/// Whether the lexeme is a name.
pub fn is_name(lexeme: TypeLexeme) -> bool
    ensures { result ≡ spec.is_name lexeme }
{
    match lexeme.kind {
        TypeLexemeKind::Name => true,
        _ => false,
    }
}
