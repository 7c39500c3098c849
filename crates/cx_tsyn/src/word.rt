ghost use Rattle.std.specs.Prelude.{◌≡◌, ◌↔◌, IsTrue, IfOk, map, position};
ghost use Rattle.cx_tsyn.specs.Words.{word_tree, has_text};

use cx_base::{List, NoMemory, Span};

/// A name as it stands in a type file, with its text.
#[derive(Debug, Drop)]
pub struct Word {
    /// Where it stands.
    pub span: Span,
    /// Its bytes.
    pub text: List<u8>,
}

impl Word {
    /// The same word once more: the same text at the same place.
    pub fn copy(&self) -> Result<Word, NoMemory>
        ensures { IfOk result (λ copy. word_tree copy ≡ word_tree self.now) }
    {
        let text = self.text.copy()?;
        Ok(Word {
            span: self.span,
            text,
        })
    }

    /// Whether the word has this text.
    pub fn is(&self, text: &[u8]) -> bool
        ensures value { result ≡ has_text text.now (word_tree self.now) }
        ensures exact { IsTrue result ↔ ((word_tree self.now).text ≡ text.now) }
    {
        self.text.as_slice() == text
    }

    /// Whether both words have the same text, wherever they stand.
    pub fn same(&self, other: &Word) -> bool
        ensures value { result ≡ has_text (word_tree other.now).text (word_tree self.now) }
        ensures exact { IsTrue result ↔ ((word_tree self.now).text ≡ (word_tree other.now).text) }
    {
        self.is(other.text.as_slice())
    }
}

fn place_of(words: &[Word], text: &[u8]) -> Option<usize>
    ensures { result ≡ position (λ w. has_text text.now (word_tree w)) words.now }
{
    words.iter().position(|word| word.is(text))
}

/// The place, counted from 0, of the first of the words that has this text; None exactly where none
/// has it.
#[tactic(auto, using(crate::proofs::Places::position_seen))]
pub fn place(words: &[Word], text: &[u8]) -> Option<usize>
    ensures { result ≡ position (has_text text.now) (map word_tree words.now) }
{
    place_of(words, text)
}
