ghost use Rattle.std.specs.Prelude.{◌≡◌, option_map, Ok};
ghost use Rattle.cx_ctree.specs.Types.{type_tree};
ghost use Rattle.cx_ctree.specs.Exprs.{expr_tree, rhs_tree};
ghost use Rattle.cx_scope.specs.Views.{locals_of};
ghost use Rattle.cx_sfile.specs.Views.{declared_in};
ghost use Rattle.cx_snode.specs.Judging.{Gives};
ghost use Rattle.cx_seffect.specs.Calls as spec;
ghost use Rattle.cx_seffect.specs.Taken.{taken_view, call_view};

use crate::call::{TypedCall, typed_call};
use crate::kind::is_taken;
use cx_base::Span;
use cx_ctree::{CType, Expr, Rhs};
use cx_ctype::{cast_type, is_zero, value_type};
use cx_scope::Locals;
use cx_sexpr::typed;
use cx_sfile::File;
use cx_snode::SemaFault;
use std::alloc::Global;

/// A value for an object, with its types.
#[derive(Drop)]
pub struct Taken {
    pub tree: Rhs,
    /// The type of the expression that has the value.
    pub ctype: CType,
    /// Whether it is the constant 0.
    pub zero: bool,
    pub span: Span,
}

/// The right side of an assignment to an object of the type, or the rule that it breaks.
pub fn assigned(to: &CType, v: Taken) -> Result<Rhs, SemaFault>
    ensures { Gives rhs_tree result (spec.assigned (type_tree to.now) (taken_view v)) }
{
    if is_taken(v.zero, value_type(&v.ctype), to) {
        Ok(v.tree)
    } else {
        Err(SemaFault::NotWellTyped {
            span: v.span,
            rule: 7,
        })
    }
}

fn taken_value(file: &File<'_>, x: Expr) -> Result<Taken, SemaFault>
    ensures { Gives taken_view result (Ok (spec.taken_value (declared_in file.now) (expr_tree x))) }
{
    let ctype = x.ctype.copy()?;
    let zero = is_zero(file.unit, &x);
    let span = x.span;
    Ok(Taken {
        tree: Rhs::Value(x),
        ctype,
        zero,
        span,
    })
}

fn called(span: Span, d: TypedCall<'_>, cast: Option<&CType>) -> Result<Taken, SemaFault>
    ensures { Gives taken_view result (spec.called span (call_view d.entry) (option_map (λ t. type_tree t.now) cast.entry)) }
{
    match cast {
        None => Ok(Taken {
            ctype: d.ctype.copy()?,
            tree: Rhs::Call(d.call, None),
            zero: false,
            span,
        }),
        Some(t) => {
            if cast_type(t, value_type(d.ctype)).is_none() {
                return Err(SemaFault::NotWellTyped { span, rule: 7 });
            }
            Ok(Taken {
                ctype: t.copy()?,
                tree: Rhs::Call(d.call, Some(t.copy()?)),
                zero: false,
                span,
            })
        }
    }
}

/// The right side of an assignment, an initialiser or a returned value with its types, or the first
/// rule that it breaks.
#[tactic(auto, using(cx_snode::proofs::Judged::tells_then, cx_snode::proofs::Judged::gives_then))]
pub fn typed_rhs(
    alloc: Global,
    file: &File<'_>,
    locals: &Locals,
    r: &Rhs,
) -> Result<Taken, SemaFault>
    ensures { Gives taken_view result (spec.typed_rhs (declared_in file.now) (locals_of locals.now) (rhs_tree r.now)) }
{
    match r {
        Rhs::Value(x) => {
            let x = typed(alloc, file, locals, x)?;
            taken_value(file, x)
        }
        Rhs::Call(call, cast) => {
            let d = typed_call(alloc, file, locals, true, call)?;
            called(call.span, d, cast.as_ref())
        }
    }
}
