ghost use Rattle.std.specs.Prelude.{◌≡◌, map, IfOk};
ghost use Rattle.cx_ctree.specs.Types.{type_tree};
ghost use Rattle.cx_ctree.specs.Stmts.{stmt_tree};
ghost use Rattle.cx_ctree.specs.Decls.{param_tree, signature_tree, function_tree, typed_tree};
ghost use Rattle.cx_scope.specs.Views.{locals_of};
ghost use Rattle.cx_sname.specs.File.{declared_of};
ghost use Rattle.cx_sfile.specs.Views.{declared_in};
ghost use Rattle.cx_snode.specs.Judging.{Gives};
ghost use Rattle.cx_sstmt.specs.Around.{Leaves, around_view};
ghost use Rattle.cx_sema.specs.Functions as spec;
ghost use Rattle.cx_sema.specs.Kept.{IsTypedFunction};
ghost use Rattle.cx_sema.specs.StmtRules.{Resolves};
ghost use Rattle.cx_sema.specs.Settled.{Settles};

use cx_base::{List, NoMemory, Span};
use cx_ctree::{CType, Function, Param, Signature, Stmt, StmtKind, Typed, Unit};
use cx_scope::Locals;
use cx_sfile::{File, file_of};
use cx_snode::SemaFault;
use cx_sstmt::{Around, is_variable, typed_stmt, typed_stmts};
use std::alloc::Global;

fn declare_param(locals: &mut Locals, span: Span, param: &Param) -> Result<(), SemaFault>
    ensures { Settles result (locals_of locals.new) (spec.typed_param span (locals_of locals.old) (type_tree param.now.ctype) param.now.name) }
{
    match param.name {
        None => Err(SemaFault::NotWellTyped { span, rule: 12 }),
        Some(n) => {
            if !is_variable(locals, n, &param.ctype) {
                return Err(SemaFault::NotWellTyped { span, rule: 12 });
            }
            let _ = locals.declare(n, param.ctype.copy()?)?;
            Ok(())
        }
    }
}

#[tactic(auto, using(cx_snode::proofs::Judged::tells_then, cx_snode::proofs::Judged::gives_then))]
fn declare_params(locals: &mut Locals, span: Span, params: &[Param]) -> Result<(), SemaFault>
    ensures { Settles result (locals_of locals.new) (spec.typed_params span (locals_of locals.old) (map param_tree params.now)) }
{
    let mut rest = params;
    while let [param, after @ ..] = rest {
        declare_param(locals, span, param)?;
        rest = after;
    }
    Ok(())
}

fn copied_param(param: &Param) -> Result<Param, NoMemory>
    ensures { IfOk result (λ p. param_tree p ≡ param_tree param.now) }
{
    Ok(Param {
        name: param.name,
        ctype: param.ctype.copy()?,
    })
}

fn copied_params(alloc: Global, params: &[Param]) -> Result<List<Param>, NoMemory>
    ensures { IfOk result (λ ps. map param_tree ps ≡ map param_tree params.now) }
{
    let mut copy = List::new(alloc);
    for param in params {
        copy.push(copied_param(param)?)?;
    }
    Ok(copy)
}

fn copied_signature(alloc: Global, sig: &Signature) -> Result<Signature, NoMemory>
    ensures { IfOk result (λ s. signature_tree s ≡ signature_tree sig.now) }
{
    Ok(Signature {
        name: sig.name,
        result: sig.result.copy()?,
        params: copied_params(alloc, sig.params.as_slice())?,
    })
}

#[tactic(auto, using(cx_snode::proofs::Judged::tells_then, cx_snode::proofs::Judged::gives_then))]
fn typed_body(
    alloc: Global,
    file: &File<'_>,
    around: Around<'_>,
    locals: &mut Locals,
    body: &Stmt,
) -> Result<Stmt, SemaFault>
    ensures { Leaves stmt_tree result (locals_of locals.new) (spec.typed_body (declared_in file.now) (around_view around.entry) (locals_of locals.old) (stmt_tree body.now)) }
{
    let span = body.span;
    match &body.kind {
        StmtKind::Block(ss) => {
            let ss = typed_stmts(alloc, file, around, locals, ss.as_slice())?;
            let kind = StmtKind::Block(ss);
            Ok(Stmt { span, kind })
        }
        StmtKind::Empty | StmtKind::Effect(_) | StmtKind::Declare(_, _, _) => {
            typed_stmt(alloc, file, around, locals, body)
        }
        StmtKind::If(_, _, _) | StmtKind::While(_, _) | StmtKind::DoWhile(_, _) => {
            typed_stmt(alloc, file, around, locals, body)
        }
        StmtKind::For(_, _, _, _) | StmtKind::Switch(_, _) => {
            typed_stmt(alloc, file, around, locals, body)
        }
        StmtKind::Break | StmtKind::Continue | StmtKind::Return(_) => {
            typed_stmt(alloc, file, around, locals, body)
        }
    }
}

#[tactic(auto, using(cx_snode::proofs::Judged::tells_then, cx_snode::proofs::Judged::gives_then))]
fn resolved(alloc: Global, file: &File<'_>, function: &Function) -> Result<Typed, SemaFault>
    ensures { Gives typed_tree result (spec.typed_function (declared_in file.now) (function_tree function.now)) }
{
    let mut locals = Locals::new(alloc);
    let name_span = function.name_span;
    declare_params(&mut locals, name_span, function.sig.params.as_slice())?;
    let around = Around {
        result: &function.sig.result,
        looped: false,
        breakable: false,
    };
    let body = typed_body(alloc, file, around, &mut locals, &function.body)?;
    let sig = copied_signature(alloc, &function.sig)?;
    Ok(Typed {
        sig,
        name_span,
        locals: locals.into_types(),
        body,
    })
}

/// The typed tree of a function of the file: each expression has its type, names are looked up, and
/// locals are numbered, parameters first.
///
/// `NotWellTyped` comes exactly where a rule on types is broken, at the first such place in the
/// order of the text, parts before wholes. `NoMemory` may come in place of any answer.
pub fn resolve_in(alloc: Global, file: &File<'_>, function: &Function) -> Result<Typed, SemaFault>
    ensures answer { Gives typed_tree result (spec.typed_function (declared_in file.now) (function_tree function.now)) }
    ensures rules { Resolves result (declared_in file.now) (function_tree function.now) }
    ensures kept { IfOk result (λ t. IsTypedFunction (declared_in file.now) (typed_tree t)) }
{
    resolved(alloc, file, function)
}

/// The typed tree of a function of the unit: each expression has its type, names are looked up, and
/// locals are numbered, parameters first. Where many functions of one unit are typed, `resolve_in`
/// goes over what the unit declares once for all of them.
///
/// `NotWellTyped` comes exactly where a rule on types is broken, at the first such place in the
/// order of the text, parts before wholes. `NoMemory` may come in place of any answer.
pub fn resolve(alloc: Global, unit: &Unit, function: &Function) -> Result<Typed, SemaFault>
    ensures answer { Gives typed_tree result (spec.typed_function (declared_of unit.now) (function_tree function.now)) }
    ensures rules { Resolves result (declared_of unit.now) (function_tree function.now) }
    ensures kept { IfOk result (λ t. IsTypedFunction (declared_of unit.now) (typed_tree t)) }
{
    let file = file_of(alloc, unit)?;
    resolve_in(alloc, &file, function)
}
