ghost use Rattle.std.specs.Prelude.{◌≡◌, map};
ghost use Rattle.cx_cword.specs.Words.{look_up};
ghost use Rattle.cx_tword.specs.Words as spec;

use cx_cword::look_up;

/// A word that a type file reserves, so that it is no name there. The reserved words with a size, as
/// `any12` and `u8`, stand beside these in `TypeLexemeKind`.
#[derive(Clone, Copy, Debug, PartialEq, Eq)]
pub enum TypeWord {
    Shared,
    Region,
    Some,
    Of,
    Struct,
    Union,
    Where,
    Cases,
    When,
    Any,
    Val,
    Ptr,
    Null,
    As,
    Fn,
    Alloc,
    For,
    Bytes,
    Zero,
    Global,
    Void,
}

const TYPE_WORDS: [(&[u8], TypeWord); 21] = [
    (b"shared", TypeWord::Shared),
    (b"region", TypeWord::Region),
    (b"some", TypeWord::Some),
    (b"of", TypeWord::Of),
    (b"struct", TypeWord::Struct),
    (b"union", TypeWord::Union),
    (b"where", TypeWord::Where),
    (b"cases", TypeWord::Cases),
    (b"when", TypeWord::When),
    (b"any", TypeWord::Any),
    (b"val", TypeWord::Val),
    (b"ptr", TypeWord::Ptr),
    (b"null", TypeWord::Null),
    (b"as", TypeWord::As),
    (b"fn", TypeWord::Fn),
    (b"alloc", TypeWord::Alloc),
    (b"for", TypeWord::For),
    (b"bytes", TypeWord::Bytes),
    (b"zero", TypeWord::Zero),
    (b"global", TypeWord::Global),
    (b"void", TypeWord::Void),
];

/// The reserved word without a size that the text is, if it is one.
pub fn type_word_of(text: &[u8]) -> Option<TypeWord>
    ensures { result ≡ spec.type_word_of text.now }
{
    look_up(&TYPE_WORDS, text)
}
