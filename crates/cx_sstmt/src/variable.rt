ghost use Rattle.std.specs.Prelude.{◌≡◌, option_map};
ghost use Rattle.cx_ctree.specs.Types.{type_tree};
ghost use Rattle.cx_ctree.specs.Exprs.{rhs_tree};
ghost use Rattle.cx_ctree.specs.Stmts.{stmt_tree};
ghost use Rattle.cx_scope.specs.Views.{locals_of};
ghost use Rattle.cx_sfile.specs.Views.{declared_in};
ghost use Rattle.cx_snode.specs.Judging.{Gives};
ghost use Rattle.cx_seffect.specs.Taken.{taken_view};
ghost use Rattle.cx_sstmt.specs.Stmts as spec;
ghost use Rattle.cx_sstmt.specs.Around.{Leaves};

use cx_base::Span;
use cx_ctree::{CType, Rhs, Stmt, StmtKind};
use cx_scope::Locals;
use cx_seffect::{Taken, assigned, is_scalar_type, typed_rhs};
use cx_sfile::File;
use cx_snode::SemaFault;
use std::alloc::Global;

/// Whether a local of this name and type may be declared.
pub fn is_variable(locals: &Locals, n: u32, ctype: &CType) -> bool
    ensures { result ≡ spec.is_variable (locals_of locals.now) n (type_tree ctype.now) }
{
    is_scalar_type(ctype) && locals.is_new(n)
}

fn variable(span: Span, new: bool, number: u32, ctype: &CType) -> Result<Stmt, SemaFault>
    ensures { Gives stmt_tree result (spec.variable span new number (type_tree ctype.now)) }
{
    if !new {
        return Err(SemaFault::NotWellTyped { span, rule: 12 });
    }
    let kind = StmtKind::Declare(number, ctype.copy()?, None);
    Ok(Stmt { span, kind })
}

#[tactic(auto, using(cx_snode::proofs::Judged::tells_then, cx_snode::proofs::Judged::gives_then))]
fn initialised(
    span: Span,
    new: bool,
    number: u32,
    ctype: &CType,
    v: Taken,
) -> Result<Stmt, SemaFault>
    ensures { Gives stmt_tree result (spec.initialised span new number (type_tree ctype.now) (taken_view v)) }
{
    if !new {
        return Err(SemaFault::NotWellTyped { span, rule: 12 });
    }
    let r = assigned(ctype, v)?;
    let kind = StmtKind::Declare(number, ctype.copy()?, Some(r));
    Ok(Stmt { span, kind })
}

/// A variable of a block with its initialiser.
#[tactic(auto, using(cx_snode::proofs::Judged::tells_then, cx_snode::proofs::Judged::gives_then))]
pub fn typed_variable(
    alloc: Global,
    file: &File<'_>,
    locals: &mut Locals,
    span: Span,
    n: u32,
    ctype: &CType,
    initial: Option<&Rhs>,
) -> Result<Stmt, SemaFault>
    ensures { Leaves stmt_tree result (locals_of locals.new) (spec.typed_variable (declared_in file.now) (locals_of locals.old) span n (type_tree ctype.now) (option_map (λ r. rhs_tree r.now) initial.entry)) }
{
    let new = is_variable(locals, n, ctype);
    let number = locals.declare(n, ctype.copy()?)?;
    match initial {
        None => variable(span, new, number, ctype),
        Some(r) => {
            let v = typed_rhs(alloc, file, locals, r)?;
            initialised(span, new, number, ctype, v)
        }
    }
}
