ghost use Rattle.std.specs.Prelude.{◌≡◌, slice_get, Ok};
ghost use Rattle.cx_ctree.specs.Types.{type_tree};
ghost use Rattle.cx_ctree.specs.Exprs.{expr_tree, node, global};
ghost use Rattle.cx_scope.specs.Views.{locals_of};
ghost use Rattle.cx_sname.specs.File.{meaning_of};
ghost use Rattle.cx_sfile.specs.Views.{declared_in};
ghost use Rattle.cx_snode.specs.Judging.{Gives};
ghost use Rattle.cx_scope.specs.Locals as scope;
ghost use Rattle.cx_sexpr.specs.Typing as spec;

use cx_base::Span;
use cx_ctree::{CType, Expr, ExprKind};
use cx_ctype::signed_int;
use cx_scope::Locals;
use cx_sfile::File;
use cx_sname::Meaning;
use cx_snode::{SemaFault, number_node};

fn object_node(span: Span, n: u32, ctype: &CType) -> Result<Expr, SemaFault>
    ensures { Gives expr_tree result (Ok (node span (type_tree ctype.now) (global n))) }
{
    let ctype = ctype.copy()?;
    let kind = ExprKind::Global(n);
    Ok(Expr { span, ctype, kind })
}

fn declared_node(file: &File<'_>, span: Span, n: u32) -> Result<Expr, SemaFault>
    ensures { Gives expr_tree result (spec.declared_node span n (meaning_of (declared_in file.now) n)) }
{
    match file.meaning_of(n) {
        Some(Meaning::Constant(v)) => Ok(number_node(span, v, signed_int())),
        Some(Meaning::Object(t)) => object_node(span, n, t),
        None | Some(Meaning::Typedef(_)) | Some(Meaning::Function(_)) => {
            Err(SemaFault::NotWellTyped { span, rule: 1 })
        }
    }
}

fn local_node(locals: &Locals, span: Span, x: u32) -> Result<Expr, SemaFault>
    ensures { Gives expr_tree result (spec.local_node span x (slice_get (locals_of locals.now).types x)) }
{
    match locals.type_of(x) {
        Some(t) => {
            let ctype = t.copy()?;
            let kind = ExprKind::Local(x);
            Ok(Expr { span, ctype, kind })
        }
        None => Err(SemaFault::NotWellTyped { span, rule: 1 }),
    }
}

/// What the name stands for, with its type.
pub fn name_node(file: &File<'_>, locals: &Locals, span: Span, n: u32) -> Result<Expr, SemaFault>
    ensures { Gives expr_tree result (spec.name_node (declared_in file.now) (locals_of locals.now) span n (scope.local_of (locals_of locals.now) n)) }
{
    match locals.local_of(n) {
        Some(x) => local_node(locals, span, x),
        None => declared_node(file, span, n),
    }
}
