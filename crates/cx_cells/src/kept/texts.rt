//! Texts compared by numbering them.

ghost use Rattle.std.specs.Prelude.{◌≢◌, ◌↔◌, ◌^◌, ◌<◌, AllPairs, IfOk, IsTrue, length};

use cx_base::{List, Names, NoMemory};
use std::alloc::Global;

/// Tells a caller's proof that no two texts of a numbering are equal.
fn known(names: &Names)
    ensures { AllPairs (λ a b. a ≢ b) names.now }
{
    let _first = names.text(0);
}

/// Whether no two of the texts are equal.
pub(crate) fn texts_differ(alloc: Global, texts: &[List<u8>]) -> Result<bool, NoMemory>
    requires { length texts.now < 2 ^ 32 }
    ensures { IfOk result (λ b. IsTrue b ↔ AllPairs (λ x y. x ≢ y) texts.now) }
{
    let mut names = Names::new(alloc)?;
    for i in 0..texts.len() {
        let n = names.number(texts[i].as_slice())?;
        if (n as usize) < i {
            return Ok(false);
        }
    }
    known(&names);
    Ok(true)
}
