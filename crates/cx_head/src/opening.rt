//! Opening a region of a state, where no staged region may be the same.

ghost use Rattle.std.specs.Prelude.{◌≡◌, Some, Ok, option_copied};
ghost use Rattle.cx_state.specs.Known.{fact_at};
ghost use Rattle.cx_state.specs.Valid.{IsValid};
ghost use Rattle.cx_head.specs.Heads.{opened};
ghost use Rattle.cx_head.specs.Staged as spec;
ghost use Rattle.cx_head.specs.Staged.{Gives};

use crate::heads::open_settled;
use cx_apart::regions_apart;
use cx_base::NoMemory;
use cx_cells::Rules;
use cx_state::{Env, EnvFault, EnvLimit, Fact};
use cx_term::Term;
use thiserror::Error;

/// Why a state was not opened or stored into.
#[derive(Clone, Copy, Debug, PartialEq, Eq, Error)]
pub enum FocusFault {
    /// The region may be the staged region of this symbol, whose bytes need not be as its type says.
    #[error("the region may be a staged one")]
    AliasStaged(u32),
    /// The state would pass this limit.
    #[error("the state passes a limit")]
    Limit(EnvLimit),
    /// The allocator refused.
    #[error("out of memory")]
    NoMemory,
}

fn fact_apart(env: &Env, s: u32, f: &Fact, t: u32) -> bool
    ensures { result ≡ spec.facts_apart env.now s (Some f.now) t (fact_at env.now.facts t) }
{
    match env.fact(t) {
        Some(g) => regions_apart(env, s, f, t, g),
        None => false,
    }
}

fn symbols_apart(env: &Env, s: u32, t: u32) -> bool
    ensures { result ≡ spec.symbols_apart env.now s t }
{
    match env.fact(s) {
        Some(f) => fact_apart(env, s, f, t),
        None => false,
    }
}

/// The first of the symbols whose region is not shown to be another than that of `s`.
fn first_aliased(env: &Env, s: u32, staged: &[u32]) -> Option<u32>
    ensures { result ≡ spec.aliased env.now s staged.now }
{
    for t in staged {
        if !symbols_apart(env, s, *t) {
            return Some(*t);
        }
    }
    None
}

fn fault_of(fault: EnvFault) -> FocusFault
    ensures { result ≡ spec.fault_of fault }
{
    match fault {
        EnvFault::Limit(kind) => FocusFault::Limit(kind),
        EnvFault::NoMemory => FocusFault::NoMemory,
    }
}

fn copied(env: &Env) -> Result<Env, FocusFault>
    ensures { Gives result (spec.answer_of (Ok env.now)) }
{
    match env.copy() {
        Ok(copy) => Ok(copy),
        Err(NoMemory) => Err(FocusFault::NoMemory),
    }
}

fn open_copy(rules: &Rules, env: Env, s: u32, element: Option<&Term>) -> Result<Env, FocusFault>
    requires valid { IsValid rules.now.forms env }
    ensures { Gives result (spec.answer_of (opened rules.now.forms env s (option_copied element.entry))) }
{
    match open_settled(rules, env, s, element) {
        Ok(env) => Ok(env),
        Err(fault) => Err(fault_of(fault)),
    }
}

/// The state in which what the type of a region says of its head, or of the element of the index that is
/// given, is known. The symbol `s` has the fact that says which region it is, is shown to be other than 0,
/// and its region is no new block. First the symbol is settled. Then each binder has the value that is known
/// of the cell that tells it, or is a new symbol; the conditions are learnt; each value and pointer that is
/// not known becomes known, and one that is known equals what the type says; and where exactly one branch of
/// the head is not shown to be impossible, it is opened in the same way. What is no `Term` is left out, or is
/// a new symbol. `AliasStaged` exactly where a staged region is not shown to be another one, with the first
/// such symbol. `Limit` exactly where else a step passes a limit of states, with the one that is passed first.
pub fn open(rules: &Rules, env: &Env, s: u32, element: Option<&Term>) -> Result<Env, FocusFault>
    requires valid { IsValid rules.now.forms env.now }
    ensures exact { Gives result (spec.open_of rules.now.forms env.now s (option_copied element.entry)) }
{
    match first_aliased(env, s, env.staged.as_slice()) {
        Some(t) => Err(FocusFault::AliasStaged(t)),
        None => {
            let copy = copied(env)?;
            open_copy(rules, copy, s, element)
        }
    }
}
