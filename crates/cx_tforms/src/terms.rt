ghost use Rattle.std.specs.Prelude.{◌≡◌, ◌++◌, map, IfOk, OnOk, Some};
ghost use Rattle.cx_tsyn.specs.Lins.{lin_part_tree, lin_tree, relation_tree};
ghost use Rattle.cx_tnumber.specs.Numbers.{symbol_of, rest_of, parts_of};
ghost use Rattle.cx_tforms.specs.Terms as spec;
ghost use Rattle.cx_tforms.specs.Amounts.{amount};

use crate::amount::{Amounts, factor_is_small, is_gone, number_is_small};
use cx_base::NoMemory;
use cx_tnumber::sums_of;
use cx_tscope::Scope;
use cx_tsyn::{Lin, LinPart, Relation};
use std::alloc::Global;

fn part_is_small(a: &Amounts, part: &LinPart) -> bool
    ensures { result ≡ spec.factor_is_small (amount a.now) (symbol_of (lin_part_tree part.now)) }
{
    match part {
        LinPart::Number(_) => true,
        LinPart::Times(_, word) => factor_is_small(a, word.text.as_slice()),
        LinPart::Symbol(word) => factor_is_small(a, word.text.as_slice()),
    }
}

fn rest_is_small(a: &Amounts, rest: &[(bool, LinPart)]) -> bool
    ensures { result ≡ spec.factors_are_small (amount a.now) (rest_of (map (λ p. (p.0, lin_part_tree p.1)) rest.now)) }
{
    for signed in rest {
        if !part_is_small(a, &signed.1) {
            return false;
        }
    }
    true
}

fn factors_are_small(a: &Amounts, lin: &Lin) -> bool
    ensures { result ≡ spec.factors_are_small (amount a.now) (parts_of (lin_tree lin.now)) }
{
    part_is_small(a, &lin.first) && rest_is_small(a, lin.rest.as_slice())
}

fn add_symbol(a: &Amounts, names: &mut Scope, text: &[u8]) -> Result<(), NoMemory>
    ensures { OnOk result (names.new ≡ spec.with_left (amount a.now) names.old (Some text.now)) }
{
    if is_gone(a, text) {
        return Ok(());
    }
    let _new = names.add(text)?;
    Ok(())
}

fn add_part(a: &Amounts, names: &mut Scope, part: &LinPart) -> Result<(), NoMemory>
    ensures { OnOk result (names.new ≡ spec.with_left (amount a.now) names.old (symbol_of (lin_part_tree part.now))) }
{
    match part {
        LinPart::Number(_) => Ok(()),
        LinPart::Times(_, word) => add_symbol(a, names, word.text.as_slice()),
        LinPart::Symbol(word) => add_symbol(a, names, word.text.as_slice()),
    }
}

fn add_rest(a: &Amounts, names: &mut Scope, rest: &[(bool, LinPart)]) -> Result<(), NoMemory>
    ensures { OnOk result (names.new ≡ spec.left_in (amount a.now) names.old (rest_of (map (λ p. (p.0, lin_part_tree p.1)) rest.now))) }
{
    for signed in rest {
        add_part(a, names, &signed.1)?;
    }
    Ok(())
}

fn add_lin(a: &Amounts, names: &mut Scope, lin: &Lin) -> Result<(), NoMemory>
    ensures { OnOk result (names.new ≡ spec.left_in (amount a.now) names.old (parts_of (lin_tree lin.now))) }
{
    add_part(a, names, &lin.first)?;
    add_rest(a, names, lin.rest.as_slice())
}

// Whether this is a term, where its symbols are those of the form.
fn form_is_term(alloc: Global, a: &Amounts, lin: &Lin) -> Result<bool, NoMemory>
    ensures { IfOk result (λ b. b ≡ spec.is_term (amount a.now) (parts_of (lin_tree lin.now))) }
{
    if !number_is_small(a) || !factors_are_small(a, lin) {
        return Ok(false);
    }
    let mut names = Scope::new(alloc);
    add_lin(a, &mut names, lin)?;
    Ok(names.len() <= 4)
}

/// Whether a linear form is a term.
pub fn lin_is_term(alloc: Global, lin: &Lin) -> Result<bool, NoMemory>
    ensures { IfOk result (λ b. b ≡ spec.lin_is_term (lin_tree lin.now)) }
{
    let sums = sums_of(alloc, lin)?;
    form_is_term(alloc, &Amounts::Form(&sums), lin)
}

// Whether this is a term, where its symbols are those of the two forms.
fn is_term(alloc: Global, a: &Amounts, first: &Lin, second: &Lin) -> Result<bool, NoMemory>
    ensures { IfOk result (λ b. b ≡ spec.is_term (amount a.now) (parts_of (lin_tree first.now) ++ parts_of (lin_tree second.now))) }
{
    if !number_is_small(a) || !factors_are_small(a, first) || !factors_are_small(a, second) {
        return Ok(false);
    }
    let mut names = Scope::new(alloc);
    add_lin(a, &mut names, first)?;
    add_lin(a, &mut names, second)?;
    Ok(names.len() <= 4)
}

fn difference_is_term(alloc: Global, first: &Lin, second: &Lin) -> Result<bool, NoMemory>
    ensures { IfOk result (λ b. b ≡ spec.difference_is_term (lin_tree first.now) (lin_tree second.now)) }
{
    let a = sums_of(alloc, first)?;
    let b = sums_of(alloc, second)?;
    if !is_term(alloc, &Amounts::Difference(&a, &b), first, second)? {
        return Ok(false);
    }
    is_term(alloc, &Amounts::OneLess(&a, &b), first, second)
}

/// Whether the difference of a relation's sides is a term, either way round, as it is and less 1.
pub fn differences_are_terms(alloc: Global, relation: &Relation) -> Result<bool, NoMemory>
    ensures { IfOk result (λ b. b ≡ spec.differences_are_terms (relation_tree relation.now)) }
{
    if !difference_is_term(alloc, &relation.left, &relation.right)? {
        return Ok(false);
    }
    difference_is_term(alloc, &relation.right, &relation.left)
}
