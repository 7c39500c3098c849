ghost use Rattle.std.specs.Prelude.{◌≡◌, Bool, List as ListOf, map};
ghost use Rattle.cx_reader.specs.Answers.{Answer, listed_at};
ghost use Rattle.cx_reader.specs.Reading.{Gives};

use crate::read::{Read, split};
use crate::stop::Stop;
use cx_base::List;
use std::alloc::Global;

/// How the items of a list are read, and what stands between each two of them.
pub trait Items<O> {
    type Item: Drop;

    // an item as plain data
    ghost Tree: { Type 0 };

    ghost tree: { Self.Item → Tree };

    // whether the lexeme stands between two items
    ghost between: { O → Bool };

    // what is read at the front of lexemes
    ghost item_at: { Self → ListOf O → Answer O Tree };

    /// Whether the lexeme stands between two items.
    fn is_between(&self, lexeme: O) -> bool
        ensures { result ≡ between lexeme };

    /// Reads an item at the front of the lexemes.
    fn item<'a>(&self, lexemes: &'a [O]) -> Result<Read<'a, O, Self::Item>, Stop>
        ensures { Gives tree result (item_at self.now lexemes.now) };
}

/// Reads items with a lexeme between each two of them, at least one, and goes on as long as such a
/// lexeme follows. `Unread` exactly where one of the items is not read.
#[tactic(auto, using(crate::proofs::Turns::many_turn, crate::proofs::Turns::many_none, cx_base::proofs::General::map_push))]
pub fn listed<'a, O: Copy, I: Items<O>>(
    alloc: Global,
    items: &I,
    lexemes: &'a [O],
) -> Result<Read<'a, O, List<I::Item>>, Stop>
    ensures { Gives (map I.tree) result (listed_at I.between (I.item_at items.now) lexemes.now) }
{
    let x = items.item(lexemes)?;
    let mut tree = List::new(alloc);
    tree.push(x.tree)?;
    let mut rest = x.rest;
    // Each turn takes a lexeme, so there are no more turns than lexemes and one.
    let mut more = rest.len();
    'each: loop {
        match split(rest) {
            None => return Ok(Read { tree, rest }),
            Some((o, after)) => {
                if items.is_between(o) {
                    let y = items.item(after)?;
                    tree.push(y.tree)?;
                    rest = y.rest;
                } else {
                    return Ok(Read { tree, rest });
                }
            }
        }
        if more == 0 {
            return Err(Stop::Unread(rest.len()));
        }
        more -= 1;
    }
}
