ghost use Rattle.std.specs.Prelude.{◌≡◌, [], length, take, map, not, position, IfOk, OnOk, OnErr};
ghost use Rattle.std.specs.List.{list_any};
ghost use Rattle.std.specs.Str.{bytes_eq};
ghost use Rattle.cx_base.specs.Names.{numbered};
ghost use Rattle.cx_tsyn.specs.Words.{word_tree};
ghost use Rattle.cx_tscope.specs.Faults.{first, first_of, unless};
ghost use Rattle.cx_tscope.specs.Scopes.{with_words, is_known, doubled_words};
ghost use Rattle.cx_tscope.specs.Scopes as spec;

use cx_base::{NoMemory, Span};
use cx_tsyn::Word;
use indexmap::IndexSet;
use std::alloc::Global;
use std::marker::Model;

/// The names that may be used at a place of a text. Contracts see it as the list of their texts, each
/// once, in the order in which they were added.
#[derive(Drop)]
pub struct Scope {
    texts: IndexSet<Vec<u8>>,
    alloc: Global,
}

impl Model for Scope {
    ghost use Rattle.std.specs.Prelude.{List, ℕ, map};

    ghost Value = { List (List ℕ) };

    ghost view = { λ n. map (λ v. v.items) n.texts.keys };
}

impl Scope {
    /// No names.
    pub fn new(alloc: Global) -> Scope
        ensures { result ≡ [] }
    {
        Scope {
            texts: IndexSet::new(alloc),
            alloc,
        }
    }

    /// How many names there are.
    #[tactic(auto, using(crate::proofs::Scopes::length_texts))]
    pub fn len(&self) -> usize
        ensures { result ≡ length self.now }
    {
        self.texts.len()
    }

    /// Whether this name is among them.
    #[tactic(auto, using(crate::proofs::Scopes::any_text))]
    pub fn has(&self, text: &[u8]) -> bool
        ensures { result ≡ list_any (bytes_eq text.now) self.now }
    {
        self.texts.contains(text)
    }

    /// Its place in their order, counted from 0; None exactly where it is not among them.
    #[tactic(auto, using(cx_base::proofs::Texts::position_map))]
    pub fn place(&self, text: &[u8]) -> Option<usize>
        ensures { result ≡ position (bytes_eq text.now) self.now }
    {
        self.texts.get_index_of(text)
    }

    /// Adds a name: true; false and unchanged exactly where it is among them. After `NoMemory` nothing
    /// has changed.
    #[tactic(auto, using(cx_base::proofs::Texts::numbered_map, crate::proofs::Scopes::any_text))]
    pub fn add(&mut self, text: &[u8]) -> Result<bool, NoMemory>
        ensures value { IfOk result (λ new. new ≡ not (list_any (bytes_eq text.now) self.old)) }
        ensures new { OnOk result (self.new ≡ numbered self.old text.now) }
        ensures err { OnErr result (self.new ≡ self.old) }
    {
        let (_, new) = self.texts.insert_full(Vec::from_slice(self.alloc, text)?)?;
        Ok(new)
    }

    /// Keeps the first `n` names.
    #[tactic(auto, using(crate::proofs::Scopes::take_texts))]
    pub fn keep(&mut self, n: usize)
        ensures { self.new ≡ take n self.old }
    {
        self.texts.truncate(n);
    }

    /// Adds the name of one more word. Where a word before it was a name already, that word's place is
    /// handed on; else the place of this one where it is a name already.
    fn declare_one(&mut self, word: &Word, before: Option<Span>) -> Result<Option<Span>, NoMemory>
        ensures new { OnOk result (self.new ≡ numbered self.old (word_tree word.now).text) }
        ensures place { IfOk result (λ s. s ≡ first_of before (unless (not (is_known self.old (word_tree word.now))) (word_tree word.now))) }
        ensures err { OnErr result (self.new ≡ self.old) }
    {
        let new = self.add(word.text.as_slice())?;
        if new || before.is_some() {
            return Ok(before);
        }
        Ok(Some(word.span))
    }

    /// Adds the names of the words one after the other. After `NoMemory` those that were there are still
    /// first.
    fn declare_each(&mut self, words: &[Word]) -> Result<Option<Span>, NoMemory>
        ensures new { OnOk result (self.new ≡ with_words self.old (map word_tree words.now)) }
        ensures doubled { IfOk result (λ s. s ≡ first (doubled_words self.old (map word_tree words.now))) }
        ensures err { OnErr result (take (length self.old) self.new ≡ self.old) }
    {
        let mut doubled = None;
        for word in words {
            doubled = self.declare_one(word, doubled)?;
        }
        Ok(doubled)
    }

    /// Adds the names of words that are declared, one after the other, and gives the place of the
    /// first of them that is a name already. After `NoMemory` nothing has changed.
    pub fn declare(&mut self, words: &[Word]) -> Result<Option<Span>, NoMemory>
        ensures new { OnOk result (self.new ≡ with_words self.old (map word_tree words.now)) }
        ensures doubled { IfOk result (λ s. s ≡ first (doubled_words self.old (map word_tree words.now))) }
        ensures err { OnErr result (self.new ≡ self.old) }
    {
        let n = self.len();
        let doubled = self.declare_each(words);
        if doubled.is_err() {
            self.keep(n);
        }
        doubled
    }
}

/// The place of the word where it is none of the names.
pub fn unknown_word(names: &Scope, word: &Word) -> Option<Span>
    ensures { result ≡ first (spec.unknown_word names.now (word_tree word.now)) }
{
    if names.has(word.text.as_slice()) {
        return None;
    }
    Some(word.span)
}
