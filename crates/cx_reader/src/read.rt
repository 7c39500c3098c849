ghost use Rattle.std.specs.Prelude.{◌≡◌};
ghost use Rattle.cx_reader.specs.Answers.{front_of};
ghost use Rattle.cx_reader.specs.Reading.{Splits};

/// What was read at the front of a list of lexemes, and the lexemes after it.
#[derive(Debug, Drop)]
pub struct Read<'a, O, T> {
    pub tree: T,
    pub rest: &'a [O],
}

/// The first lexeme and those after it; None exactly where there is none.
pub fn split<O: Copy>(lexemes: &[O]) -> Option<(O, &[O])>
    ensures { Splits result lexemes.now }
{
    match lexemes {
        [] => None,
        [o, rest @ ..] => Some((*o, rest)),
    }
}

/// The lexemes of `whole` before `rest`, where that is the end of it.
pub fn front<'a, O>(whole: &'a [O], rest: &[O]) -> &'a [O]
    ensures { result.now ≡ front_of whole.now rest.now }
{
    &whole[..whole.len().saturating_sub(rest.len())]
}
