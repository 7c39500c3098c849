//! Whether what is known of the bytes of a region shows its type.

ghost use Rattle.std.specs.Prelude.{◌≡◌, ◌≤◌, ◌+◌, IsTrue, Some, All, length, slice_get, option_copied};
ghost use Rattle.std.specs.List.{list_any};
ghost use Rattle.cx_cells.specs.Kept.{FormKept};
ghost use Rattle.cx_state.specs.Known.{fact_at};
ghost use Rattle.cx_query.specs.Shown.{number};
ghost use Rattle.cx_state.specs.Valid.{IsValid};
ghost use Rattle.cx_close.specs.Knowing.{known_binders};
ghost use Rattle.cx_close.specs.Closing as spec;
ghost use Rattle.cx_close.specs.Closing.{ClosesTruly};

use crate::cells::{are_any, cells_shown, conds_shown};
use crate::knowing::known_binders;
use cx_cells::{CaseBranch, Form, Rules, Tail};
use cx_query::number;
use cx_state::{Env, Fact};
use cx_term::Term;

fn branch_with(
    own: Option<u32>,
    env: &Env,
    form: &Form,
    s: u32,
    f: &Fact,
    b: &CaseBranch,
    values: &[Term],
) -> bool
    ensures { result ≡ spec.branch_with env.now (spec.branch_window own form.now s f.now b.now) b.now (Some values.now) }
{
    let start = number(i128::from(form.cases_at));
    conds_shown(env, values, b.part.conds.as_slice())
        && cells_shown(own, env, s, f, &start, values, b.part.cells.as_slice())
}

fn branch_known(
    own: Option<u32>,
    env: &Env,
    form: &Form,
    s: u32,
    f: &Fact,
    values: &[Term],
    b: &CaseBranch,
) -> bool
    requires few { length values.now + b.now.part.binders ≤ 40 }
    ensures { result ≡ spec.branch_with env.now (spec.branch_window own form.now s f.now b.now) b.now (known_binders env.now (spec.branch_window own form.now s f.now b.now) b.now.part.binders (Some values.now)) }
{
    let start = number(i128::from(form.cases_at));
    let cells = b.part.cells.as_slice();
    match known_binders(own, env, s, f, &start, cells, values, b.part.binders) {
        Some(all) => branch_with(own, env, form, s, f, b, all.as_slice()),
        None => false,
    }
}

fn branch_shown(
    own: Option<u32>,
    env: &Env,
    form: &Form,
    s: u32,
    f: &Fact,
    values: &[Term],
    b: &CaseBranch,
) -> bool
    requires few { length values.now + b.now.part.binders ≤ 40 }
    ensures { result ≡ spec.branch_shown own env.now form.now s f.now values.now b.now }
{
    conds_shown(env, values, b.guard.as_slice()) && branch_known(own, env, form, s, f, values, b)
}

fn any_shown(
    own: Option<u32>,
    env: &Env,
    form: &Form,
    s: u32,
    f: &Fact,
    values: &[Term],
    cases: &[CaseBranch],
) -> bool
    requires few { All (λ b. length values.now + b.part.binders ≤ 40) cases.now }
    ensures { result ≡ list_any (spec.branch_shown own env.now form.now s f.now values.now) cases.now }
{
    cases
        .iter()
        .any(|b| branch_shown(own, env, form, s, f, values, b))
}

/// Whether some branch is shown, where there are branches.
fn cases_shown(
    own: Option<u32>,
    env: &Env,
    form: &Form,
    s: u32,
    f: &Fact,
    values: &[Term],
    cases: &[CaseBranch],
) -> bool
    requires few { All (λ b. length values.now + b.part.binders ≤ 40) cases.now }
    ensures { result ≡ spec.cases_shown own env.now form.now s f.now values.now cases.now }
{
    cases.is_empty() || any_shown(own, env, form, s, f, values, cases)
}

fn head_with(own: Option<u32>, env: &Env, form: &Form, s: u32, f: &Fact, values: &[Term]) -> bool
    requires few { All (λ b. length values.now + b.part.binders ≤ 40) form.now.cases }
    ensures { result ≡ spec.head_with own env.now form.now s f.now (Some values.now) }
{
    let start = number(0);
    conds_shown(env, values, form.conds.as_slice())
        && (cells_shown(own, env, s, f, &start, values, form.head.as_slice())
            && cases_shown(own, env, form, s, f, values, form.cases.as_slice()))
}

fn head_shown(own: Option<u32>, env: &Env, form: &Form, s: u32, f: &Fact) -> bool
    requires few { length f.now.args + form.now.binders ≤ 24 }
    requires branches { All (λ b. b.part.binders ≤ 16) form.now.cases }
    ensures { result ≡ spec.head_shown own env.now form.now s f.now }
{
    let start = number(0);
    let head = form.head.as_slice();
    match known_binders(
        own,
        env,
        s,
        f,
        &start,
        head,
        f.args.as_slice(),
        form.binders,
    ) {
        Some(values) => head_with(own, env, form, s, f, values.as_slice()),
        None => false,
    }
}

/// Whether the elements of the tail, where there is one, may be any bytes.
fn tail_is_any(tail: &Option<Tail>) -> bool
    ensures { result ≡ spec.tail_is_any tail.now }
{
    match tail {
        Some(tail) => {
            tail.part.binders == 0
                && (tail.part.conds.len() == 0 && are_any(tail.part.cells.as_slice()))
        }
        None => true,
    }
}

fn closes_form(env: &Env, s: u32, f: &Fact, form: &Form) -> bool
    requires few { length f.now.args + form.now.binders ≤ 24 }
    requires branches { All (λ b. b.part.binders ≤ 16) form.now.cases }
    ensures { result ≡ spec.closes_form env.now s f.now (Some form.now) }
{
    (!env.is_fresh(s) || tail_is_any(&form.tail)) && head_shown(Some(s), env, form, s, f)
}

fn form_at(forms: &[Form], name: u32) -> Option<&Form>
    ensures { option_copied result ≡ slice_get forms.now name }
{
    forms.get(name as usize)
}

fn closes_by(forms: &[Form], env: &Env, s: u32, f: &Fact) -> bool
    requires kept { All (FormKept forms.now) forms.now }
    requires valid { IsValid forms.now env.now }
    requires fact { Some f.now ≡ fact_at env.now.facts s }
    ensures { result ≡ spec.closes_form env.now s f.now (slice_get forms.now f.now.name) }
{
    match form_at(forms, f.name) {
        Some(form) => closes_form(env, s, f, form),
        None => false,
    }
}

fn closes(rules: &Rules, env: &Env, s: u32) -> bool
    requires valid { IsValid rules.now.forms env.now }
    ensures { result ≡ spec.closes rules.now.forms env.now s }
{
    match env.fact(s) {
        Some(f) => closes_by(rules.forms.as_slice(), env, s, f),
        None => false,
    }
}

/// Whether what is known of the bytes of the region of the symbol `s` shows its type: it has a fact, each
/// binder of the head has a known value, each value and pointer of the head is known and shown, the
/// conditions are shown, and so is some branch where there are branches. The symbol counts as not fresh
/// here; where it is fresh, the tail may be any bytes.
pub fn close(rules: &Rules, env: &Env, s: u32) -> bool
    requires valid { IsValid rules.now.forms env.now }
    ensures exact { result ≡ spec.closes rules.now.forms env.now s }
    ensures sound { IsTrue result → ClosesTruly rules.now.forms env.now s }
{
    closes(rules, env, s)
}
