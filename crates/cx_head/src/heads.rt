//! Opening the head of a region, or an element of its tail.

ghost use Rattle.std.specs.Prelude.{◌≡◌, ◌≤◌, ◌+◌, All, Some, IfOk, IfSome, pos, slice_get, length, ◌++◌, option_copied};
ghost use Rattle.cx_cells.specs.Kept.{FormKept};
ghost use Rattle.cx_state.specs.Known.{fact_at};
ghost use Rattle.cx_state.specs.Valid.{IsValid};
ghost use Rattle.cx_query.specs.Shown.{number};
ghost use Rattle.cx_learn.specs.Answers.{Agrees};
ghost use Rattle.cx_open.specs.Steps.{AgreesOn};
ghost use Rattle.cx_open.specs.Parts.{part_opened};
ghost use Rattle.cx_head.specs.Heads as spec;

use crate::branches::open_cases;
use cx_base::{List, NoMemory};
use cx_cells::{Form, Rules, Tail};
use cx_fact::settle;
use cx_open::{Opening, open_part};
use cx_query::number;
use cx_state::{Env, EnvFault, Fact};
use cx_term::Term;

fn with_args(env: Env, f: &Fact) -> Result<Opening, NoMemory>
    ensures { IfOk result (λ o. o ≡ spec.with_args env f.now) }
{
    let terms = f.copy()?.args;
    Ok(Opening { env, terms })
}

fn open_own(rules: &Rules, form: &Form, s: u32, f: &Fact, env: Env) -> Result<Opening, EnvFault>
    requires few { length f.now.args + form.now.binders ≤ 24 }
    ensures longer { IfOk result (λ o. length o.terms ≡ length f.now.args + form.now.binders) }
    ensures exact { AgreesOn result (part_opened rules.now.forms (spec.head_window form.now s f.now) form.now.binders form.now.conds (spec.with_args env f.now)) }
{
    let o = with_args(env, f)?;
    let start = number(0);
    let head = form.head.as_slice();
    open_part(
        rules,
        s,
        f,
        &start,
        head,
        form.conds.as_slice(),
        form.binders,
        o,
    )
}

fn open_head(rules: &Rules, form: &Form, s: u32, f: &Fact, env: Env) -> Result<Env, EnvFault>
    requires few { length f.now.args + form.now.binders ≤ 24 }
    requires branches { All (λ b. b.part.binders ≤ 16) form.now.cases }
    ensures { Agrees result (spec.head_opened rules.now.forms form.now s f.now env) }
{
    let o = open_own(rules, form, s, f, env)?;
    open_cases(rules, form, s, f, o)
}

fn element_start(form: &Form, tail: &Tail, i: &Term) -> Option<Term>
    ensures { result ≡ spec.element_start form.now tail.now i.now (number (pos form.now.head_size)) }
{
    match number(i128::from(form.head_size)) {
        Some(t) => t.plus_times(i128::from(tail.part.size), i),
        None => None,
    }
}

/// The arguments, and as many zeros as the form has binders.
fn element_terms(form: &Form, f: &Fact) -> Result<List<Term>, NoMemory>
    ensures { IfOk result (λ terms. terms ≡ f.now.args ++ spec.zeros form.now.binders) }
{
    let mut terms = f.copy()?.args;
    for _i in 0..form.binders {
        terms.push(Term::zero())?;
    }
    Ok(terms)
}

fn element_values(form: &Form, env: Env, f: &Fact) -> Result<Opening, NoMemory>
    ensures { IfOk result (λ o. o ≡ spec.element_values form.now env f.now) }
{
    let terms = element_terms(form, f)?;
    Ok(Opening { env, terms })
}

fn open_tail(
    rules: &Rules,
    form: &Form,
    tail: &Tail,
    s: u32,
    f: &Fact,
    i: &Term,
    env: Env,
) -> Result<Env, EnvFault>
    requires few { length f.now.args + form.now.binders ≤ 24 }
    requires element { tail.now.part.binders ≤ 16 }
    ensures { Agrees result (spec.element_opened rules.now.forms form.now s f.now i.now env (Some tail.now)) }
{
    let o = element_values(form, env, f)?;
    let start = element_start(form, tail, i);
    let part = &tail.part;
    let cells = part.cells.as_slice();
    let o = open_part(
        rules,
        s,
        f,
        &start,
        cells,
        part.conds.as_slice(),
        part.binders,
        o,
    )?;
    Ok(o.env)
}

fn open_element(
    rules: &Rules,
    form: &Form,
    s: u32,
    f: &Fact,
    i: &Term,
    env: Env,
) -> Result<Env, EnvFault>
    requires few { length f.now.args + form.now.binders ≤ 24 }
    requires element { IfSome form.now.tail (λ tail. tail.part.binders ≤ 16) }
    ensures { Agrees result (spec.element_opened rules.now.forms form.now s f.now i.now env form.now.tail) }
{
    match &form.tail {
        Some(tail) => open_tail(rules, form, tail, s, f, i, env),
        None => Ok(env),
    }
}

fn open_chosen(
    rules: &Rules,
    form: &Form,
    s: u32,
    f: &Fact,
    element: Option<&Term>,
    env: Env,
) -> Result<Env, EnvFault>
    requires few { length f.now.args + form.now.binders ≤ 24 }
    requires branches { All (λ b. b.part.binders ≤ 16) form.now.cases }
    requires element { IfSome form.now.tail (λ tail. tail.part.binders ≤ 16) }
    ensures { Agrees result (spec.part_chosen rules.now.forms (option_copied element.entry) s f.now env form.now) }
{
    match element {
        Some(i) => open_element(rules, form, s, f, i, env),
        None => open_head(rules, form, s, f, env),
    }
}

fn form_at(forms: &[Form], name: u32) -> Option<&Form>
    ensures { option_copied result ≡ slice_get forms.now name }
{
    forms.get(name as usize)
}

fn open_form(
    rules: &Rules,
    s: u32,
    f: &Fact,
    element: Option<&Term>,
    env: Env,
) -> Result<Env, EnvFault>
    requires valid { IsValid rules.now.forms env }
    requires fact { fact_at env.facts s ≡ Some f.now }
    ensures { Agrees result (spec.form_opened rules.now.forms (option_copied element.entry) s f.now env (slice_get rules.now.forms f.now.name)) }
{
    match form_at(rules.forms.as_slice(), f.name) {
        Some(form) => open_chosen(rules, form, s, f, element, env),
        None => Ok(env),
    }
}

/// The fact of the symbol once more.
fn fact_of(env: &Env, s: u32) -> Result<Option<Fact>, NoMemory>
    ensures { IfOk result (λ copy. copy ≡ fact_at env.now.facts s) }
{
    match env.fact(s) {
        Some(f) => {
            let copy = f.copy()?;
            Ok(Some(copy))
        }
        None => Ok(None),
    }
}

fn open_fact(rules: &Rules, s: u32, element: Option<&Term>, env: Env) -> Result<Env, EnvFault>
    requires valid { IsValid rules.now.forms env }
    ensures { Agrees result (spec.fact_opened rules.now.forms (option_copied element.entry) s env (fact_at env.facts s)) }
{
    match fact_of(&env, s)? {
        Some(f) => open_form(rules, s, &f, element, env),
        None => Ok(env),
    }
}

/// The state in which the symbol is settled, and then its region's head, or the element of the index that
/// is given, is opened.
pub(crate) fn open_settled(
    rules: &Rules,
    env: Env,
    s: u32,
    element: Option<&Term>,
) -> Result<Env, EnvFault>
    requires valid { IsValid rules.now.forms env }
    ensures { Agrees result (spec.opened rules.now.forms env s (option_copied element.entry)) }
{
    let env = settle(rules, env, s)?;
    open_fact(rules, s, element, env)
}
