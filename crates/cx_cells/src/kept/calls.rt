ghost use Rattle.std.specs.Prelude.{◌↔◌, ◌≡◌, ◌≢◌, ℕ, ◌+◌, ◌*◌, ◌<◌, ◌≤◌, IsTrue, IsSome, IfSome, All, false, count_by, length};
ghost use Rattle.cx_base.specs.Memory.{IsArgument};
ghost use Rattle.cx_cells.specs.Symbols.{told_by, telling_kind};
ghost use Rattle.cx_cells.specs.Kept.{CondIn, KindIn, is_any, is_value, ResultKept, FnKept, AllocArgKept, AllocKept, GlobalKept};

use crate::calls::{AllocArg, AllocType, FnType, GlobalType, ResultType};
use crate::cell::CellKind;
use crate::form::Form;
use crate::kept::cells::{conds_in, has_params, kind_in};
use crate::telling::{telling_kind, told_by};

fn is_value(kind: &CellKind) -> bool
    ensures { result ≡ is_value kind.now }
{
    match kind {
        CellKind::Any => false,
        CellKind::Val {
            signed: _,
            value: _,
        } => true,
        CellKind::Ptr {
            name: _,
            args: _,
            off: _,
            null: _,
        } => false,
    }
}

fn is_any(kind: &CellKind) -> bool
    ensures { result ≡ is_any kind.now }
{
    match kind {
        CellKind::Any => true,
        CellKind::Val {
            signed: _,
            value: _,
        } => false,
        CellKind::Ptr {
            name: _,
            args: _,
            off: _,
            null: _,
        } => false,
    }
}

/// Whether no kind is that of any bytes.
fn none_any(kinds: &[CellKind]) -> bool
    ensures { IsTrue result ↔ All (λ k. is_any k ≡ false) kinds.now }
{
    kinds.iter().all(|k| !is_any(k))
}

fn value_count(kinds: &[CellKind]) -> usize
    ensures { result ≡ count_by is_value kinds.now }
{
    kinds.iter().filter(|k| is_value(k)).count()
}

fn kinds_in(forms: &[Form], kinds: &[CellKind], known: u32) -> bool
    ensures { IsTrue result ↔ All (KindIn forms.now known 0 0) kinds.now }
{
    kinds.iter().all(|k| kind_in(forms, k, known, 0, 0))
}

/// Whether each symbol from `first` on and below `past` is told by the kind.
fn told_by_kind(kind: &CellKind, first: u32, past: u32) -> bool
    ensures { IsTrue result ↔ ((s : ℕ) → first ≤ s → s < past → IsSome (told_by s kind.now)) }
{
    for s in first..past {
        if told_by(kind, s).is_none() {
            return false;
        }
    }
    true
}

/// Whether each symbol below `past` is told by the first kind that names it.
fn told_by_kinds(kinds: &[CellKind], past: u32) -> bool
    ensures { IsTrue result ↔ ((s : ℕ) → s < past → IsSome (telling_kind s kinds.now)) }
{
    for s in 0..past {
        if telling_kind(kinds, s).is_none() {
            return false;
        }
    }
    true
}

/// Whether the result keeps its facts, where its own binders begin at `first`.
fn result_kept(forms: &[Form], first: u32, r: &ResultType) -> bool
    requires { first ≤ 24 }
    ensures { IsTrue result ↔ ResultKept forms.now first r.now }
{
    if r.binders > 16 {
        return false;
    }
    let past = first + r.binders;
    r.conds.len() < 4294967296
        && kind_in(forms, &r.cell, past, 0, 0)
        && !is_any(&r.cell)
        && conds_in(r.conds.as_slice(), past, 0, 0)
        && told_by_kind(&r.cell, first, past)
}

fn some_result_kept(forms: &[Form], first: u32, r: &Option<ResultType>) -> bool
    requires { first ≤ 24 }
    ensures { IsTrue result ↔ IfSome r.now (ResultKept forms.now first) }
{
    match r {
        Some(r) => result_kept(forms, first, r),
        None => true,
    }
}

/// Whether there are at most 32 conditions, and two more for each argument that is a value.
fn has_few_conds(f: &FnType) -> bool
    requires { length f.now.args ≤ 8 }
    ensures { IsTrue result ↔ (length f.now.conds ≤ 32 + 2 * count_by is_value f.now.args) }
{
    f.conds.len() <= 32 + 2 * value_count(f.args.as_slice())
}

/// Whether a function with so few binders and arguments keeps the other facts, apart from how its
/// binders are told.
fn terms_kept(forms: &[Form], f: &FnType) -> bool
    requires binders { f.now.binders ≤ 24 }
    requires args { length f.now.args ≤ 8 }
    ensures { IsTrue result ↔ ((length f.now.conds ≤ 32 + 2 * count_by is_value f.now.args) × All (KindIn forms.now f.now.binders 0 0) f.now.args × All (λ k. is_any k ≡ false) f.now.args × All (CondIn f.now.binders 0 0) f.now.conds × IfSome f.now.result (ResultKept forms.now f.now.binders)) }
{
    has_few_conds(f)
        && kinds_in(forms, f.args.as_slice(), f.binders)
        && none_any(f.args.as_slice())
        && conds_in(f.conds.as_slice(), f.binders, 0, 0)
        && some_result_kept(forms, f.binders, &f.result)
}

fn fn_kept(forms: &[Form], f: &FnType) -> bool
    ensures { IsTrue result ↔ FnKept forms.now f.now }
{
    if f.binders > 24 || f.args.len() > 8 {
        return false;
    }
    if !told_by_kinds(f.args.as_slice(), f.binders) {
        return false;
    }
    terms_kept(forms, f)
}

/// Whether each function keeps its facts.
pub(crate) fn fns_kept(forms: &[Form], fns: &[FnType]) -> bool
    ensures { IsTrue result ↔ All (FnKept forms.now) fns.now }
{
    fns.iter().all(|f| fn_kept(forms, f))
}

fn alloc_arg_kept(params: u32, arg: &AllocArg) -> bool
    ensures { IsTrue result ↔ AllocArgKept params arg.now }
{
    match arg {
        AllocArg::Number(_) => true,
        AllocArg::Param(p) => *p < params,
        AllocArg::Over(p, d) => *p < params && 0 < *d,
    }
}

fn alloc_args_kept(params: u32, args: &[AllocArg]) -> bool
    ensures { IsTrue result ↔ All (AllocArgKept params) args.now }
{
    args.iter().all(|a| alloc_arg_kept(params, a))
}

fn is_below(place: Option<u32>, params: u32) -> bool
    ensures { IsTrue result ↔ IfSome place (λ p. p < params) }
{
    match place {
        Some(p) => p < params,
        None => true,
    }
}

fn alloc_kept(forms: &[Form], a: &AllocType) -> bool
    ensures { IsTrue result ↔ AllocKept forms.now a.now }
{
    a.params <= 8
        && has_params(forms, a.region, a.args.len())
        && alloc_args_kept(a.params, a.args.as_slice())
        && a.bytes < a.params
        && is_below(a.times, a.params)
}

/// Whether each allocator keeps its facts.
pub(crate) fn allocs_kept(forms: &[Form], allocs: &[AllocType]) -> bool
    ensures { IsTrue result ↔ All (AllocKept forms.now) allocs.now }
{
    allocs.iter().all(|a| alloc_kept(forms, a))
}

fn is_argument(a: i128) -> bool
    ensures { IsTrue result ↔ IsArgument a }
{
    -18446744073709551616 <= a && a <= 18446744073709551616
}

fn are_arguments(args: &[i128]) -> bool
    ensures { IsTrue result ↔ All IsArgument args.now }
{
    args.iter().all(|a| is_argument(*a))
}

fn global_kept(forms: &[Form], g: &GlobalType) -> bool
    ensures { IsTrue result ↔ GlobalKept forms.now g.now }
{
    has_params(forms, g.region, g.args.len()) && are_arguments(g.args.as_slice())
}

/// Whether each global keeps its facts.
pub(crate) fn globals_kept(forms: &[Form], globals: &[GlobalType]) -> bool
    ensures { IsTrue result ↔ All (GlobalKept forms.now) globals.now }
{
    globals.iter().all(|g| global_kept(forms, g))
}

fn is_no_alloc(name: u32, allocs: &[AllocType]) -> bool
    ensures { IsTrue result ↔ All (λ a. name ≢ a.name) allocs.now }
{
    allocs.iter().all(|a| name != a.name)
}

/// Whether no function has an allocator's name.
pub(crate) fn are_no_allocs(fns: &[FnType], allocs: &[AllocType]) -> bool
    ensures { IsTrue result ↔ All (λ f. All (λ a. f.name ≢ a.name) allocs.now) fns.now }
{
    fns.iter().all(|f| is_no_alloc(f.name, allocs))
}
