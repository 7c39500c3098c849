ghost use Rattle.std.specs.Prelude.{◌≡◌, ◌==◌, ◌&&◌, ◌||◌, not, map, option_map, length, Some};
ghost use Rattle.std.specs.List.{list_all};
ghost use Rattle.cx_ctree.specs.Types.{type_tree};
ghost use Rattle.cx_ctree.specs.Decls.{param_tree, signature_tree};
ghost use Rattle.cx_ctree.specs.Exprs.{expr_tree, call_tree};
ghost use Rattle.cx_cname.specs.Known.{function_type};
ghost use Rattle.cx_scope.specs.Views.{locals_of};
ghost use Rattle.cx_sname.specs.File.{meaning_of};
ghost use Rattle.cx_sfile.specs.Views.{declared_in};
ghost use Rattle.cx_sname.specs.Meanings.{meaning_tree};
ghost use Rattle.cx_ctype.specs.Operations as types;
ghost use Rattle.cx_sexpr.specs.Typing.{typed};
ghost use Rattle.cx_snode.specs.Judging.{Gives, judged_all};
ghost use Rattle.cx_seffect.specs.Calls as spec;
ghost use Rattle.cx_seffect.specs.Taken.{call_view};

use crate::kind::{is_scalar_type, is_taken, is_void};
use cx_base::List;
use cx_ctree::{CType, Call, Expr, Param, Signature};
use cx_ctype::{is_zero, value_type};
use cx_scope::Locals;
use cx_sexpr::typed;
use cx_sfile::File;
use cx_sname::Meaning;
use cx_snode::SemaFault;
use std::alloc::Global;

/// A call whose arguments have their types, and the type of its result.
#[derive(Drop)]
pub struct TypedCall<'a> {
    pub call: Call,
    pub ctype: &'a CType,
}

#[tactic(auto, using(cx_snode::proofs::Judged::behind_none, cx_snode::proofs::Judged::one_more, cx_snode::proofs::Judged::fault_of_next, crate::proofs::Lists::all_done))]
fn typed_all(
    alloc: Global,
    file: &File<'_>,
    locals: &Locals,
    args: &[Expr],
) -> Result<List<Expr>, SemaFault>
    ensures { Gives (map expr_tree) result (judged_all (typed (declared_in file.now) (locals_of locals.now)) (map expr_tree args.now)) }
{
    let mut done = List::new(alloc);
    let mut rest = args;
    while let [arg, after @ ..] = rest {
        done.push(typed(alloc, file, locals, arg)?)?;
        rest = after;
    }
    Ok(done)
}

fn are_scalar(params: &[Param]) -> bool
    ensures { result ≡ list_all types.is_scalar (map (λ p. p.ctype) (map param_tree params.now)) }
{
    let mut rest = params;
    while let [param, after @ ..] = rest {
        if !is_scalar_type(&param.ctype) {
            return false;
        }
        rest = after;
    }
    true
}

#[tactic(auto, using(crate::proofs::Lists::count_twice))]
fn has_count(params: &[Param], count: usize) -> bool
    ensures { result ≡ (length (map (λ p. p.ctype) (map param_tree params.now)) == count) }
{
    params.len() == count
}

fn has_result(taken: bool, ctype: &CType) -> bool
    ensures { result ≡ (types.is_scalar (type_tree ctype.now) || (not taken && spec.is_void (type_tree ctype.now))) }
{
    is_scalar_type(ctype) || !taken && is_void(ctype)
}

fn is_callable(taken: bool, count: usize, sig: &Signature) -> bool
    ensures { result ≡ spec.is_callable taken count (type_tree sig.now.result) (map (λ p. p.ctype) (map param_tree sig.now.params)) }
{
    let params = sig.params.as_slice();
    has_count(params, count) && are_scalar(params) && has_result(taken, &sig.result)
}

fn first_misfit<'a>(file: &File<'_>, args: &'a [Expr], params: &[Param]) -> Option<&'a Expr>
    ensures { option_map (λ x. expr_tree x.now) result ≡ spec.first_misfit (declared_in file.now) (map expr_tree args.now) (map (λ p. p.ctype) (map param_tree params.now)) }
{
    let mut rest = args;
    let mut others = params;
    while let [arg, after @ ..] = rest {
        let [param, others_after @ ..] = others else {
            return None;
        };
        let zero = is_zero(file.unit, arg);
        if !is_taken(zero, value_type(&arg.ctype), &param.ctype) {
            return Some(arg);
        }
        rest = after;
        others = others_after;
    }
    None
}

#[tactic(auto, using(crate::proofs::Lists::count_once))]
fn passed<'a>(
    file: &File<'_>,
    taken: bool,
    call: Call,
    sig: &'a Signature,
) -> Result<TypedCall<'a>, SemaFault>
    ensures { Gives call_view result (spec.call_of (declared_in file.now) taken (call_tree call) (Some (function_type (signature_tree sig.now)))) }
{
    let span = call.span;
    if !is_callable(taken, call.args.len(), sig) {
        return Err(SemaFault::NotWellTyped { span, rule: 8 });
    }
    match first_misfit(file, call.args.as_slice(), sig.params.as_slice()) {
        None => {}
        Some(arg) => {
            return Err(SemaFault::NotWellTyped {
                span: arg.span,
                rule: 7,
            });
        }
    }
    Ok(TypedCall {
        call,
        ctype: &sig.result,
    })
}

/// The call with its types, where it is told whether its result is taken, or the first rule that it
/// breaks.
#[tactic(auto, using(cx_snode::proofs::Judged::tells_then, cx_snode::proofs::Judged::gives_then))]
pub fn typed_call<'a>(
    alloc: Global,
    file: &File<'a>,
    locals: &Locals,
    taken: bool,
    call: &Call,
) -> Result<TypedCall<'a>, SemaFault>
    ensures { Gives call_view result (spec.typed_call (declared_in file.now) (locals_of locals.now) taken (call_tree call.now)) }
{
    let args = typed_all(alloc, file, locals, call.args.as_slice())?;
    let span = call.span;
    let name = call.name;
    match file.meaning_of(name) {
        Some(Meaning::Function(sig)) => passed(file, taken, Call { span, name, args }, sig),
        None | Some(Meaning::Typedef(_)) | Some(Meaning::Constant(_)) | Some(Meaning::Object(_)) =>
            Err(SemaFault::NotWellTyped { span, rule: 8 }),
    }
}
