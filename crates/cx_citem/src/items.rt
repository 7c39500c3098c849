ghost use Rattle.std.specs.Prelude.{◌≡◌, ◌<◌, ◌≤◌, [], ◌∷◌, ◌++◌, length, IfOk, IfSome, MatchOption};
ghost use Rattle.cx_citem.specs.Items.{items_of, beginning};
ghost use Rattle.cx_citem.specs.Scanning.{place_of, length_from};

use crate::nesting::Nesting;
use cx_base::NoMemory;
use cx_cword::{Lexeme, split};
use std::alloc::Global;

// How many lexemes the first item has, if one of the lexemes ends an item.
#[tactic(auto, unfolding(crate::specs::Scanning::length_from))]
fn item_length(alloc: Global, lexemes: &[Lexeme]) -> Result<Option<usize>, NoMemory>
    ensures length { IfOk result (λ n. n ≡ length_from beginning 0 lexemes.now) }
    ensures within { IfOk result (λ n. IfSome n (λ n. n ≤ length lexemes.now)) }
    ensures some { IfOk result (λ n. IfSome n (λ n. 0 < n)) }
{
    let mut nesting = Nesting::new(alloc);
    let mut n = 0;
    let mut rest = lexemes;
    while let Some((o, after)) = split(rest) {
        n += 1;
        if nesting.ends_item(o.kind) {
            return Ok(Some(n));
        }
        nesting.pass(o.kind)?;
        rest = after;
    }
    Ok(None)
}

/// The first item of the lexemes and what comes after it; None exactly where no item ends in them.
#[tactic(auto, using(crate::proofs::Cutting::items_none, crate::proofs::Cutting::items_some))]
pub fn next_item(
    alloc: Global,
    lexemes: &[Lexeme],
) -> Result<Option<(&[Lexeme], &[Lexeme])>, NoMemory>
    ensures items { IfOk result (λ r. MatchOption r (items_of lexemes.now ≡ []) (λ p. items_of lexemes.now ≡ p.0.now ∷ items_of p.1.now)) }
    ensures parts { IfOk result (λ r. IfSome r (λ p. lexemes.now ≡ p.0.now ++ p.1.now)) }
    ensures some { IfOk result (λ r. IfSome r (λ p. 0 < length p.0.now)) }
{
    match item_length(alloc, lexemes)? {
        None => Ok(None),
        Some(n) => Ok(Some((&lexemes[..n], &lexemes[n..]))),
    }
}
