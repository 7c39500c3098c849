ghost use Rattle.std.specs.Prelude.{◌≡◌, ◌++◌, map, pos, IfOk, OnOk, OnErr};
ghost use Rattle.std.specs.Option.{unwrap_or};
ghost use Rattle.cx_term.specs.Forms.{constant_of, fit};
ghost use Rattle.cx_tnumber.specs.Numbers.{factor_of, signed as signed_of, symbol_of as name_of};
ghost use Rattle.cx_tsyn.specs.Lins.{lin_part_tree, lin_tree};
ghost use Rattle.cx_flin.specs.Names.{symbol_in};
ghost use Rattle.cx_flin.specs.Scopes.{scope_of};
ghost use Rattle.cx_flin.specs.Terms as spec;

use crate::names::{Named, symbol_of};
use cx_base::{List, NoMemory};
use cx_term::Term;
use cx_tsyn::{Lin, LinPart};
use std::alloc::Global;

// The number, or what is 0 less it. NoMemory where that is no i128: no type file has such a number.
fn signed(minus: bool, z: i128) -> Result<i128, NoMemory>
    ensures { IfOk result (λ s. s ≡ signed_of minus z) }
{
    if !minus {
        return Ok(z);
    }
    match 0i128.checked_sub(z) {
        Some(s) => Ok(s),
        None => Err(NoMemory),
    }
}

fn times_name(scope: &[Named], text: &[u8], z: i128) -> (Option<u32>, i128)
    ensures { result ≡ spec.times_symbol (symbol_in (scope_of scope.now) text.now) z }
{
    match symbol_of(scope, text) {
        Some(s) => (Some(s), z),
        None => (None, 0),
    }
}

fn part_of(scope: &[Named], minus: bool, part: &LinPart) -> Result<(Option<u32>, i128), NoMemory>
    ensures { IfOk result (λ p. p ≡ spec.part_in (scope_of scope.now) minus (lin_part_tree part.now)) }
{
    match part {
        LinPart::Number(z) => Ok((None, signed(minus, *z)?)),
        LinPart::Times(z, w) => Ok(times_name(scope, w.text.as_slice(), signed(minus, *z)?)),
        LinPart::Symbol(w) => Ok(times_name(scope, w.text.as_slice(), signed(minus, 1)?)),
    }
}

fn add_rest(
    parts: &mut List<(Option<u32>, i128)>,
    scope: &[Named],
    minus: bool,
    rest: &[(bool, LinPart)],
) -> Result<(), NoMemory>
    ensures { OnOk result (parts.new ≡ parts.old ++ spec.rest_in (scope_of scope.now) minus (map (λ p. (p.0, lin_part_tree p.1)) rest.now)) }
{
    for p in rest {
        parts.push(part_of(scope, p.0 != minus, &p.1)?)?;
    }
    Ok(())
}

/// Adds the parts of a linear form behind a sign.
pub fn add_lin(
    parts: &mut List<(Option<u32>, i128)>,
    scope: &[Named],
    minus: bool,
    lin: &Lin,
) -> Result<(), NoMemory>
    ensures { OnOk result (parts.new ≡ parts.old ++ spec.parts_in (scope_of scope.now) minus (lin_tree lin.now)) }
{
    parts.push(part_of(scope, lin.negative != minus, &lin.first)?)?;
    add_rest(parts, scope, minus, lin.rest.as_slice())
}

#[tactic(auto, using(crate::proofs::Exact::some_sum, crate::proofs::Exact::none_sum))]
/// The sum of the parts; 0 where it passes the limits of terms.
pub fn term_of(parts: &[(Option<u32>, i128)]) -> Term
    ensures { result ≡ spec.term_of parts.now }
{
    match Term::sum_of(parts) {
        Some(t) => {
            t.known();
            t
        }
        None => Term::zero(),
    }
}

/// The linear form as a term over the symbols of the scope. A name that is not declared stands for 0,
/// and so does a form that passes the limits of terms.
pub fn term(alloc: Global, scope: &[Named], lin: &Lin) -> Result<Term, NoMemory>
    ensures { IfOk result (λ t. t ≡ spec.flat_lin (scope_of scope.now) (lin_tree lin.now)) }
{
    let mut parts = List::new(alloc);
    add_lin(&mut parts, scope, false, lin)?;
    Ok(term_of(parts.as_slice()))
}

/// The linear forms as terms, in order.
pub fn terms(alloc: Global, scope: &[Named], lins: &[Lin]) -> Result<List<Term>, NoMemory>
    ensures { IfOk result (λ ts. ts ≡ map (λ l. spec.flat_lin (scope_of scope.now) (lin_tree l)) lins.now) }
{
    let mut made = List::new(alloc);
    for lin in lins {
        made.push(term(alloc, scope, lin)?)?;
    }
    Ok(made)
}
