//! Which branch of a form can still be the one that holds, and its opening.

ghost use Rattle.std.specs.Prelude.{◌≡◌, ◌≤◌, ◌+◌, All, Some, option_copied, length};
ghost use Rattle.std.specs.List.{list_any};
ghost use Rattle.cx_entail.specs.Shows.{minus_less_one};
ghost use Rattle.cx_learn.specs.Answers.{Agrees};
ghost use Rattle.cx_head.specs.Branches as spec;

use cx_cells::{CaseBranch, Form, Rules};
use cx_open::{Opening, learn_all, open_part};
use cx_query::{number, shown_in, shown_zero};
use cx_state::{Env, EnvFault, Fact};
use cx_term::{Ineq, Term};

fn minus_less_one(t: &Term) -> Option<Term>
    ensures { result ≡ minus_less_one t.now }
{
    match Term::constant(-1) {
        Some(one) => one.sub(t),
        None => None,
    }
}

fn shown_below(env: &Env, t: Option<Term>) -> bool
    ensures { result ≡ spec.shown_below env.now t }
{
    match t {
        Some(t) => shown_in(env, minus_less_one(&t)),
        None => false,
    }
}

fn shown_nothing(env: &Env, t: Option<Term>) -> bool
    ensures { result ≡ spec.shown_nothing env.now t }
{
    match t {
        Some(t) => shown_zero(env, &t),
        None => false,
    }
}

fn is_refuted(env: &Env, values: &[Term], c: &Ineq) -> bool
    ensures { result ≡ spec.refuted env.now values.now c.now }
{
    match c {
        Ineq::Ge(t) => shown_below(env, t.put_all(values)),
        Ineq::Ne(t) => shown_nothing(env, t.put_all(values)),
    }
}

fn any_refuted(env: &Env, values: &[Term], guard: &[Ineq]) -> bool
    ensures { result ≡ list_any (spec.refuted env.now values.now) guard.now }
{
    guard.iter().any(|c| is_refuted(env, values, c))
}

fn is_possible(env: &Env, values: &[Term], b: &CaseBranch) -> bool
    ensures { result ≡ spec.is_possible env.now values.now b.now }
{
    !any_refuted(env, values, b.guard.as_slice())
}

fn any_possible(env: &Env, values: &[Term], cases: &[CaseBranch]) -> bool
    ensures { result ≡ list_any (spec.is_possible env.now values.now) cases.now }
{
    cases.iter().any(|b| is_possible(env, values, b))
}

/// The branch that is possible, where no other is.
fn only_possible<'a>(env: &Env, values: &[Term], cases: &'a [CaseBranch]) -> Option<&'a CaseBranch>
    ensures { option_copied result ≡ spec.only_possible env.now values.now cases.now }
{
    for i in 0..cases.len() {
        if is_possible(env, values, &cases[i]) {
            if any_possible(env, values, &cases[i + 1..]) {
                return None;
            }
            return Some(&cases[i]);
        }
    }
    None
}

fn open_branch(
    rules: &Rules,
    form: &Form,
    s: u32,
    f: &Fact,
    o: Opening,
    b: &CaseBranch,
) -> Result<Env, EnvFault>
    requires few { length o.terms + b.now.part.binders ≤ 40 }
    ensures { Agrees result (spec.branch_opened rules.now.forms form.now s f.now o b.now) }
{
    let terms = o.terms;
    let env = learn_all(terms.as_slice(), o.env, b.guard.as_slice())?;
    let start = number(i128::from(form.cases_at));
    let part = &b.part;
    let o = Opening { env, terms };
    let o = open_part(
        rules,
        s,
        f,
        &start,
        part.cells.as_slice(),
        part.conds.as_slice(),
        part.binders,
        o,
    )?;
    Ok(o.env)
}

/// The only branch that is still possible, opened; nothing where none or more than one is.
pub(crate) fn open_cases(
    rules: &Rules,
    form: &Form,
    s: u32,
    f: &Fact,
    o: Opening,
) -> Result<Env, EnvFault>
    requires few { All (λ b. length o.terms + b.part.binders ≤ 40) form.now.cases }
    ensures { Agrees result (spec.cases_opened rules.now.forms form.now s f.now o) }
{
    match only_possible(&o.env, o.terms.as_slice(), form.cases.as_slice()) {
        Some(b) => open_branch(rules, form, s, f, o, b),
        None => Ok(o.env),
    }
}
