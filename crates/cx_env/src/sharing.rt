//! Cells of shared regions, which others may rewrite.

ghost use Rattle.std.specs.Prelude.{◌≡◌, filter, IfOk, slice_get};
ghost use Rattle.cx_env.specs.Others.{is_private_form, is_private_cell, without_shared, StandsWithout, StandsAfterChanges};

use cx_base::{List, NoMemory};
use cx_cells::{Form, Rules};
use cx_state::{Cell, Env};

fn is_private_form(forms: &[Form], name: u32) -> bool
    ensures { result ≡ is_private_form (slice_get forms.now name) }
{
    match forms.get(name as usize) {
        Some(form) => !form.shared,
        None => false,
    }
}

fn is_private_cell(forms: &[Form], env: &Env, c: &Cell) -> bool
    ensures { result ≡ is_private_cell forms.now env.now.facts c.now }
{
    match env.fact(c.sym) {
        Some(f) => is_private_form(forms, f.name),
        None => false,
    }
}

fn private_cells(forms: &[Form], env: &Env) -> Result<List<Cell>, NoMemory>
    ensures { IfOk result (λ cells. cells ≡ filter (is_private_cell forms.now env.now.facts) env.now.cells) }
{
    let mut kept = List::new(env.cells.alloc());
    for c in env.cells.as_slice() {
        if is_private_cell(forms, env, c) {
            kept.push(c.copy())?;
        }
    }
    Ok(kept)
}

fn without_by(forms: &[Form], env: Env) -> Result<Env, NoMemory>
    ensures { IfOk result (λ next. next ≡ without_shared forms.now env) }
{
    let mut env = env;
    env.cells = private_cells(forms, &env)?;
    Ok(env)
}

/// The state without the cells of symbols whose regions are of shared types. What stands at the moment of
/// an access stands without these cells also before the next change that others make, and after each.
pub fn without_shared(rules: &Rules, env: Env) -> Result<Env, NoMemory>
    ensures exact { IfOk result (λ next. next ≡ without_shared rules.now.forms env) }
    ensures stands { IfOk result (λ next. StandsWithout rules.now.forms env next) }
    ensures after_changes { IfOk result (λ next. StandsAfterChanges rules.now.forms next) }
{
    without_by(rules.forms.as_slice(), env)
}
