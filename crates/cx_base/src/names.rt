ghost use Rattle.std.specs.Prelude.{◌≡◌, ◌<◌, ◌≤◌, ◌+◌, ◌-◌, ◌^◌, [], length, IfOk, OnOk, OnErr, option_map, slice_get, position, ◌≢◌, IfSome, IfNone, Some, All};
ghost use Rattle.std.specs.Str.{bytes_eq};
ghost use Rattle.std.specs.List.{position_or_len};
ghost use Rattle.cx_base.specs.Names.{Numbering, numbered};

use crate::list::NoMemory;
use indexmap::IndexSet;
use std::alloc::Global;
use std::marker::Model;

/// A numbering of byte strings by first sight. Contracts see it as the list of its texts, which are
/// all different, in the order of their numbers.
#[derive(Drop)]
pub struct Names {
    texts: IndexSet<Vec<u8>>,
    alloc: Global,
}

impl Model for Names {
    ghost use Rattle.std.specs.Prelude.{List, ℕ, map};
    ghost use Rattle.cx_base.specs.Names.{Numbering};

    ghost Value = { List (List ℕ) };

    ghost view = { λ n. map (λ v. v.items) n.texts.keys };

    ghost invariant = { λ n. Numbering (map (λ v. v.items) n.texts.keys) };
}

impl Names {
    /// No texts.
    pub fn new(alloc: Global) -> Result<Names, NoMemory>
        ensures { IfOk result (λ n. n ≡ []) }
    {
        Ok(Names {
            texts: IndexSet::new(alloc),
            alloc,
        })
    }

    /// The text that has the number `n`; None exactly where no text has it.
    pub fn text(&self, n: u32) -> Option<&[u8]>
        ensures text { option_map (λ t. t.now) result ≡ slice_get self.now n }
        ensures numbering { Numbering self.now }
    {
        let text = self.texts.get_index(n as usize)?;
        Some(text.as_slice())
    }

    /// The number of the text; None exactly where it has none.
    #[tactic(auto, using(crate::proofs::Texts::position_map))]
    pub fn number_of(&self, text: &[u8]) -> Option<u32>
        ensures number { result ≡ position (bytes_eq text.now) self.now }
        ensures found { IfSome result (λ n. slice_get self.now n ≡ Some text.now) }
        ensures absent { IfNone result (All (λ t. t ≢ text.now) self.now) }
        ensures numbering { Numbering self.now }
    {
        let n = self.texts.get_index_of(text)?;
        Some(n as u32)
    }

    /// Numbers the text where it has no number yet.
    #[tactic(auto, using(crate::proofs::Texts::place_map, crate::proofs::Texts::numbered_map))]
    fn insert(&mut self, text: &[u8]) -> Result<u32, NoMemory>
        requires { length self.old < 2 ^ 32 - 1 }
        ensures value { IfOk result (λ n. n ≡ position_or_len (bytes_eq text.now) self.old) }
        ensures new { OnOk result (self.new ≡ numbered self.old text.now) }
        ensures err { OnErr result (self.new ≡ self.old) }
    {
        let (n, _) = self.texts.insert_full(Vec::from_slice(self.alloc, text)?)?;
        Ok(n as u32)
    }

    /// The number of the text: the one that it has, or else the next one, which it has from now on.
    /// No other text gets or loses a number. After `NoMemory` nothing has changed.
    pub fn number(&mut self, text: &[u8]) -> Result<u32, NoMemory>
        requires { length self.old < 2 ^ 32 - 1 }
        ensures value { IfOk result (λ n. n ≡ position_or_len (bytes_eq text.now) self.old) }
        ensures new { OnOk result (self.new ≡ numbered self.old text.now) }
        ensures stands { IfOk result (λ n. slice_get self.new n ≡ Some text.now) }
        ensures grows { length self.new ≤ length self.old + 1 }
        ensures err { OnErr result (self.new ≡ self.old) }
    {
        self.insert(text)
    }
}
