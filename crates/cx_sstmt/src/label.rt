ghost use Rattle.std.specs.Prelude.{◌≡◌, Ok};
ghost use Rattle.cx_ctree.specs.Exprs.{expr_tree, span_of};
ghost use Rattle.cx_cconst.specs.Constants.{constant_in};
ghost use Rattle.cx_sfile.specs.Views.{declared_in};
ghost use Rattle.cx_scope.specs.Locals as scope;
ghost use Rattle.cx_sexpr.specs.Typing as sexpr;
ghost use Rattle.cx_sstmt.specs.Labels as spec;
ghost use Rattle.cx_sstmt.specs.Around.{seen_view, Sees, Labels, label_trees};

use cx_base::{CInt, List, Span, wrap};
use cx_cconst::constant_value;
use cx_ctree::Expr;
use cx_scope::Locals;
use cx_sexpr::typed;
use cx_sfile::File;
use cx_snode::SemaFault;
use indexmap::IndexSet;
use std::alloc::Global;

/// The labels of a switch so far: the values of its cases, and whether it has a default.
#[derive(Drop)]
pub struct Seen {
    pub values: IndexSet<i128>,
    pub default_: bool,
}

pub fn none_seen(alloc: Global) -> Seen
    ensures { seen_view result ≡ spec.none_seen }
{
    Seen {
        values: IndexSet::new(alloc),
        default_: false,
    }
}

/// The value of the constant expression of a case, of which `value` is the same with its types.
fn case_value(file: &File<'_>, x: &Expr, value: &Expr) -> Option<i128>
    requires { sexpr.typed (declared_in file.now) scope.no_locals (expr_tree x.now) ≡ Ok (expr_tree value.now) }
    ensures { result ≡ constant_in (declared_in file.now).known (expr_tree x.now) }
{
    constant_value(file.unit, value)
}

/// The case with this expression, of which `value` is the same with its types.
fn see_case(
    file: &File<'_>,
    t: CInt,
    seen: &mut Seen,
    x: &Expr,
    value: &Expr,
) -> Result<(), SemaFault>
    requires { sexpr.typed (declared_in file.now) scope.no_locals (expr_tree x.now) ≡ Ok (expr_tree value.now) }
    ensures { Sees result (seen_view seen.new) (spec.case_seen (span_of (expr_tree x.now)) t (seen_view seen.old) (constant_in (declared_in file.now).known (expr_tree x.now))) }
{
    let span = x.span;
    let Some(v) = case_value(file, x, value) else {
        return Err(SemaFault::NotWellTyped { span, rule: 10 });
    };
    let new = seen.values.insert(wrap(t, v))?;
    if new {
        Ok(())
    } else {
        Err(SemaFault::NotWellTyped { span, rule: 10 })
    }
}

fn see_default(span: Span, seen: &mut Seen) -> Result<(), SemaFault>
    ensures { Sees result (seen_view seen.new) (spec.default_seen span (seen_view seen.old)) }
{
    if seen.default_ {
        return Err(SemaFault::NotWellTyped { span, rule: 10 });
    }
    seen.default_ = true;
    Ok(())
}

/// The labels of a group in order, with their types.
#[tactic(auto, using(crate::proofs::Steps::no_labels, crate::proofs::Steps::default_next, crate::proofs::Steps::case_next, crate::proofs::Steps::default_breaks, crate::proofs::Steps::value_breaks, crate::proofs::Steps::case_breaks))]
pub fn typed_labels(
    alloc: Global,
    file: &File<'_>,
    t: CInt,
    span: Span,
    seen: &mut Seen,
    labels: &[Option<Expr>],
) -> Result<List<Option<Expr>>, SemaFault>
    ensures { Labels result (seen_view seen.new) (spec.typed_labels (declared_in file.now) t span (seen_view seen.old) (label_trees labels.now)) }
{
    let no_locals = Locals::new(alloc);
    let mut done = List::new(alloc);
    let mut rest = labels;
    while let [label, after @ ..] = rest {
        match label {
            None => {
                see_default(span, seen)?;
                done.push(None)?;
            }
            Some(x) => {
                let value = typed(alloc, file, &no_locals, x)?;
                see_case(file, t, seen, x, &value)?;
                done.push(Some(value))?;
            }
        }
        rest = after;
    }
    Ok(done)
}
