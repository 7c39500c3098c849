// Enumerators (C11 6.7.2.2).

ghost use Rattle.std.specs.Prelude.{◌≡◌, pos, true, IfOk};
ghost use Rattle.cx_cword.specs.Reading.{Gives};
ghost use Rattle.cx_cname.specs.Known.{known_of, earlier_of};
ghost use Rattle.cx_cname.specs.Changes.{past};
ghost use Rattle.cx_cdecl.specs.Reading.{got_value, value_at, enumerator_at, enumerators_at};
ghost use Rattle.cx_cdecl.specs.Reading as spec;

use cx_base::List;
use cx_cconst::constant_value;
use cx_cexpr::{cond, named};
use cx_cname::meaning::is_new;
use cx_cname::{Change, add_constant};
use cx_ctree::Unit;
use cx_cword::{Lexeme, Mark, Stop};
use std::alloc::Global;

/// The value of an enumerator, and the lexemes after it.
#[derive(Drop)]
pub struct ReadValue<'a> {
    pub value: i128,
    pub rest: &'a [Lexeme],
}

fn in_int(v: i128) -> bool
    ensures { result ≡ spec.in_int v }
{
    -2147483648 <= v && v < 2147483648
}

/// The value of an enumerator, after its name.
#[tactic(auto, using(crate::proofs::Turns::chosen_not), unfolding(crate::specs::Reading::value_at))]
fn value<'a>(
    alloc: Global,
    known: &Unit,
    turns: usize,
    next: i128,
    lexemes: &'a [Lexeme],
) -> Result<ReadValue<'a>, Stop>
    ensures { Gives got_value result (value_at turns (known_of known.now) next lexemes.now) }
{
    match cx_cword::next(Mark::Assign, lexemes) {
        None => Ok(ReadValue {
            value: next,
            rest: lexemes,
        }),
        Some((_, rest)) => {
            let x = cond(alloc, known, turns, 400, rest)?;
            match constant_value(known, &x.tree) {
                None => Err(Stop::Unread),
                Some(value) => Ok(ReadValue {
                    value,
                    rest: x.rest,
                }),
            }
        }
    }
}

/// An enumerator, which is declared.
#[tactic(auto, using(crate::proofs::Params::earlier_alone), unfolding(crate::specs::Reading::enumerator_at))]
fn enumerator<'a>(
    alloc: Global,
    known: &mut Unit,
    changes: &mut List<Change>,
    turns: usize,
    next: i128,
    lexemes: &'a [Lexeme],
) -> Result<ReadValue<'a>, Stop>
    ensures value { Gives (λ r. record { tree = r.value; known = known_of known.new; rest = r.rest.now }) result (enumerator_at turns (earlier_of known.old) (known_of known.old) next lexemes.now) }
    ensures low { IfOk result (λ r. spec.in_int r.value ≡ true) }
    ensures kept { past changes.new known.new ≡ past changes.old known.old }
    ensures items { known.new.items ≡ known.old.items }
{
    match named(lexemes) {
        None => Err(Stop::Unread),
        Some((_, n, rest)) => {
            let v = value(alloc, known, turns, next, rest)?;
            if !in_int(v.value) || !is_new(known, &[], n) {
                return Err(Stop::Unread);
            }
            add_constant(known, changes, n, v.value)?;
            Ok(v)
        }
    }
}

/// Enumerators up to the brace, with a last comma that may stand there: the lexemes from the brace
/// on.
#[tactic(auto, using(crate::proofs::Turns::enumerators_turn, crate::proofs::Turns::enumerators_none, crate::proofs::Turns::chosen_not))]
pub fn enumerators<'a>(
    alloc: Global,
    known: &mut Unit,
    changes: &mut List<Change>,
    turns: usize,
    lexemes: &'a [Lexeme],
) -> Result<&'a [Lexeme], Stop>
    ensures value { Gives (λ r. record { tree = tt; known = known_of known.new; rest = r.now }) result (enumerators_at turns (earlier_of known.old) turns (known_of known.old) (pos 0) lexemes.now) }
    ensures kept { past changes.new known.new ≡ past changes.old known.old }
    ensures items { known.new.items ≡ known.old.items }
{
    let mut n = turns;
    let mut next = 0;
    let mut rest = lexemes;
    'each: while n > 0 {
        n -= 1;
        let x = enumerator(alloc, known, changes, turns, next, rest)?;
        match cx_cword::next(Mark::Comma, x.rest) {
            None => return Ok(x.rest),
            Some((_, after)) => match cx_cword::next(Mark::CloseBrace, after) {
                Some((_, _)) => return Ok(after),
                None => {
                    next = x.value + 1;
                    rest = after;
                }
            },
        }
    }
    Err(Stop::Unread)
}
