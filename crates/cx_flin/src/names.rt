ghost use Rattle.std.specs.Prelude.{◌≡◌, ◌+◌, ◌++◌, length, take, map, IfOk, OnOk, OnErr};
ghost use Rattle.cx_tsyn.specs.Words.{word_tree};
ghost use Rattle.cx_flin.specs.Names.{numbered, symbol_in};
ghost use Rattle.cx_flin.specs.Scopes.{scope_of};

use cx_base::{List, NoMemory};
use cx_tsyn::Word;

/// A name with the number of its symbol.
#[derive(Clone, Copy)]
pub struct Named<'a> {
    pub text: &'a [u8],
    pub symbol: u32,
}

/// The symbol of the name: of several the one that is declared last. None exactly where none is.
pub fn symbol_of(scope: &[Named], text: &[u8]) -> Option<u32>
    ensures { result ≡ symbol_in (scope_of scope.now) text.now }
{
    let mut found = None;
    for n in scope {
        if n.text == text {
            found = Some(n.symbol);
        }
    }
    found
}

/// Gives the words the symbols from `next` on, in order; the first that is not given is answered.
/// `NoMemory` also where a symbol would be 2^32 - 1 or more; then those that were there are still first.
pub fn declare<'a>(
    scope: &mut List<Named<'a>>,
    words: &'a [Word],
    next: u32,
) -> Result<u32, NoMemory>
    ensures value { IfOk result (λ n. n ≡ next + length words.now) }
    ensures new { OnOk result (scope_of scope.new ≡ scope_of scope.old ++ numbered next (map word_tree words.now)) }
    ensures err { OnErr result (take (length scope.old) scope.new ≡ scope.old) }
{
    let mut next = next;
    for w in words {
        let Some(after) = next.checked_add(1) else {
            return Err(NoMemory);
        };
        scope.push(Named {
            text: w.text.as_slice(),
            symbol: next,
        })?;
        next = after;
    }
    Ok(next)
}
