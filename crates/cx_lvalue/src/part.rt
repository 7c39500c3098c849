//! Which expressions have a test of their own, and the lines that follow values.

ghost use Rattle.std.specs.Prelude.{◌≡◌, ◌+◌, ◌<◌, ◌∷◌, pos, negsuc, OnOk};
ghost use Rattle.cx_ctree.specs.Exprs.{expr_tree};
ghost use Rattle.cx_cconst.specs.Constants.{converted};
ghost use Rattle.cx_goto.specs.Trees.{const, bin};
ghost use Rattle.cx_goto.specs.declared.code.End.TheVariants.{Branch};
ghost use Rattle.cx_goto.specs.declared.code.Op.TheVariants.{Xor};
ghost use Rattle.cx_goto.specs.declared.code.Rel.TheVariants.{Ne};
ghost use Rattle.cx_lcode.specs.Items as items;
ghost use Rattle.cx_lemit.specs.Made.{Emits};
ghost use Rattle.cx_lvalue.specs.Tests.{tests_itself};

use cx_base::{CInt, NoMemory, Span, wrap};
use cx_ctree::{Expr, ExprKind, Unary};
use cx_goto::{End, Instr, Op, Rel};
use cx_lemit::{Builder, line, start};
use cx_lsize::{Sort, sort_of};

/// Whether the code of a test is not that of its value: for `!`, `&&`, `||` and comparisons.
pub fn has_test(e: &Expr) -> bool
    ensures { result ≡ tests_itself (expr_tree e.now) }
{
    match &e.kind {
        ExprKind::Unary(Unary::Not, _) => true,
        ExprKind::Binary(op, _, _) => match sort_of(*op) {
            Sort::Both | Sort::Either | Sort::Comparing => true,
            Sort::Computing => false,
        },
        ExprKind::Unary(Unary::Plus | Unary::Neg | Unary::Compl, _) => false,
        ExprKind::Num(_, _) | ExprKind::Name(_) | ExprKind::Local(_) | ExprKind::Global(_) => false,
        ExprKind::SizeOf(_) | ExprKind::SizeOfExpr(_) | ExprKind::Cond(_, _, _) => false,
        ExprKind::Index(_, _) | ExprKind::Member(_, _) | ExprKind::Arrow(_, _) => false,
        ExprKind::Cast(_, _) | ExprKind::Deref(_) | ExprKind::Address(_) => false,
    }
}

/// Goes to block `there` where the local is not 0, by the next local.
pub fn nonzero(
    code: &mut Builder,
    span: Span,
    t: u32,
    there: u32,
    other: u32,
    keep: u32,
) -> Result<(), NoMemory>
    requires { t < 128 }
    ensures { OnOk result (Emits code.old code.new (λ rest. items.does span (const (t + 1) (pos 0)) ∷ items.start (Branch Ne t (t + 1) there other) span keep ∷ rest)) }
{
    line(code, span, Instr::Const(t + 1, 0))?;
    start(
        code,
        End::Branch(Rel::Ne, t, t + 1, there, other),
        span,
        keep,
    )
}

/// Turns each bit of the local, by the next one.
pub fn complement(code: &mut Builder, span: Span, to: CInt, t: u32) -> Result<(), NoMemory>
    requires { t < 128 }
    ensures { OnOk result (Emits code.old code.new (λ rest. items.does span (const (t + 1) (converted to (negsuc 0))) ∷ items.does span (bin t Xor to t (t + 1)) ∷ rest)) }
{
    line(code, span, Instr::Const(t + 1, wrap(to, -1)))?;
    line(code, span, Instr::Bin(t, Op::Xor, to, t, t + 1))
}
