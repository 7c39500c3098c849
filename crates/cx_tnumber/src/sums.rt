ghost use Rattle.std.specs.Prelude.{◌≡◌, ◌+ℤ◌, ℕ, Option, List, Some, None, pos, map, IfOk, OnOk};
ghost use Rattle.cx_tsyn.specs.Lins.{lin_part_tree, lin_tree};
ghost use Rattle.cx_tnumber.specs.Numbers as spec;
ghost use Rattle.cx_tnumber.specs.Sums.{summed};

use crate::whole::{is_zero, signed, sum};
use cx_base::NoMemory;
use cx_tsyn::{Lin, LinPart};
use indexmap::IndexMap;
use std::alloc::Global;

/// The sums of a linear form: of its numbers, and of the factors of each of its symbols.
#[derive(Drop)]
pub struct Sums {
    number: i128,
    symbols: IndexMap<Vec<u8>, i128>,
    alloc: Global,
}

impl Sums {
    fn new(alloc: Global) -> Sums
        ensures { (u : Option (List ℕ)) → summed result u ≡ pos 0 }
    {
        Sums {
            number: 0,
            symbols: IndexMap::new(alloc),
            alloc,
        }
    }

    /// The sum of the numbers without a symbol.
    pub fn number(&self) -> i128
        ensures { result ≡ summed self.now None }
    {
        self.number
    }

    /// The sum of the factors of the symbol.
    pub fn of(&self, text: &[u8]) -> i128
        ensures { result ≡ summed self.now (Some text.now) }
    {
        match self.symbols.get(text) {
            Some(z) => *z,
            None => 0,
        }
    }

    /// Whether nothing is left of the symbol.
    pub fn is_gone(&self, text: &[u8]) -> bool
        ensures { result ≡ spec.is_zero (summed self.now (Some text.now)) }
    {
        is_zero(self.of(text))
    }

    #[tactic(auto, using(crate::proofs::Symbols::number_grown))]
    fn add_number(&mut self, z: i128) -> Result<(), NoMemory>
        ensures { OnOk result ((u : Option (List ℕ)) → summed self.new u ≡ spec.share (None, z) u +ℤ summed self.old u) }
    {
        self.number = sum(z, self.number)?;
        Ok(())
    }

    fn add_symbol(&mut self, text: &[u8], z: i128) -> Result<(), NoMemory>
        ensures { OnOk result ((u : Option (List ℕ)) → summed self.new u ≡ spec.share (Some text.now, z) u +ℤ summed self.old u) }
    {
        let more = sum(z, self.of(text))?;
        let text = Vec::from_slice(self.alloc, text)?;
        self.symbols.insert(text, more)?;
        Ok(())
    }

    fn add(&mut self, minus: bool, part: &LinPart) -> Result<(), NoMemory>
        ensures { OnOk result ((u : Option (List ℕ)) → summed self.new u ≡ spec.share (spec.part_of minus (lin_part_tree part.now)) u +ℤ summed self.old u) }
    {
        match part {
            LinPart::Number(z) => self.add_number(signed(minus, *z)?),
            LinPart::Times(z, word) => {
                let z = signed(minus, *z)?;
                self.add_symbol(word.text.as_slice(), z)
            }
            LinPart::Symbol(word) => {
                let z = signed(minus, 1)?;
                self.add_symbol(word.text.as_slice(), z)
            }
        }
    }

    fn add_rest(&mut self, rest: &[(bool, LinPart)]) -> Result<(), NoMemory>
        ensures { OnOk result ((u : Option (List ℕ)) → summed self.new u ≡ spec.total (spec.rest_of (map (λ p. (p.0, lin_part_tree p.1)) rest.now)) u +ℤ summed self.old u) }
    {
        for signed in rest {
            self.add(signed.0, &signed.1)?;
        }
        Ok(())
    }
}

/// The sums of a linear form. `NoMemory` also where one of them is no `i128` on the way.
pub fn sums_of(alloc: Global, lin: &Lin) -> Result<Sums, NoMemory>
    ensures { IfOk result (λ s. (u : Option (List ℕ)) → summed s u ≡ spec.sum_of (lin_tree lin.now) u) }
{
    let mut sums = Sums::new(alloc);
    sums.add(lin.negative, &lin.first)?;
    sums.add_rest(lin.rest.as_slice())?;
    Ok(sums)
}
