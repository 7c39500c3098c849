//! What a state says of one symbol.

ghost use Rattle.std.specs.Prelude.{◌≡◌, ◌<◌, ◌^◌, length, option_copied};
ghost use Rattle.cx_entail.specs.Shows.{same_form};
ghost use Rattle.cx_state.specs.Known.{fact_at, is_one_of, is_cell_at, known_in};

use crate::state::{Cell, Env, Fact};
use cx_term::Term;

impl Env {
    /// The fact of the symbol `s`, None where there is no such symbol or nothing is known of it as an
    /// address.
    pub fn fact(&self, s: u32) -> Option<&Fact>
        ensures { option_copied result ≡ fact_at self.now.facts s }
    {
        match self.facts.get(s as usize) {
            Some(known) => match known {
                Some(f) => Some(f),
                None => None,
            },
            None => None,
        }
    }

    /// Whether the symbol `s` stands for a new block.
    pub fn is_fresh(&self, s: u32) -> bool
        ensures { result ≡ is_one_of self.now.fresh s }
    {
        is_one_of(self.fresh.as_slice(), s)
    }

    /// Whether the head of the region of the symbol `s` need not hold its type now.
    pub fn is_staged(&self, s: u32) -> bool
        ensures { result ≡ is_one_of self.now.staged s }
    {
        is_one_of(self.staged.as_slice(), s)
    }
}

fn is_one_of(symbols: &[u32], s: u32) -> bool
    ensures { result ≡ is_one_of symbols.now s }
{
    symbols.iter().any(|t| *t == s)
}

fn same_form(a: &Term, b: &Term) -> bool
    ensures { result ≡ same_form a.now b.now }
{
    a.same(b)
}

fn is_cell_at(c: &Cell, s: u32, at: &Term, size: u8) -> bool
    ensures { result ≡ is_cell_at s at.now size c.now }
{
    c.sym == s && (c.size == size && same_form(&c.at, at))
}

fn first_cell(cells: &[Cell], s: u32, at: &Term, size: u8) -> Option<usize>
    ensures { result ≡ known_in cells.now s at.now size }
{
    cells.iter().position(|c| is_cell_at(c, s, at, size))
}

/// The place of the known cell: of the first cell of the symbol `s` that has this size and begins at
/// the symbol plus `at`. None exactly where there is none.
pub fn known(env: &Env, s: u32, at: &Term, size: u8) -> Option<u32>
    requires few { length env.now.cells < 2 ^ 32 }
    ensures { result ≡ known_in env.now.cells s at.now size }
{
    let i = first_cell(env.cells.as_slice(), s, at, size)?;
    Some(i as u32)
}
