//! The tests of what rules keep. Each is true exactly where its fact of `specs/Kept.antt` holds.

ghost use Rattle.std.specs.Prelude.{◌↔◌, ◌≡◌, ◌≢◌, ◌^◌, ◌<◌, IsTrue, All, AllPairs, length};
ghost use Rattle.cx_cells.specs.Kept.{IsName, SameCall, FormKept, FnKept, AllocKept, GlobalKept, Kept};

mod calls;
mod cells;
mod forms;
mod names;
mod numbers;
mod order;
mod pairs;
mod texts;

use crate::calls::{AllocType, FnType, GlobalType};
use crate::form::Form;
use crate::kept::calls::{allocs_kept, are_no_allocs, fns_kept, globals_kept};
use crate::kept::forms::forms_kept;
use crate::kept::names::{are_names, are_short};
use crate::kept::numbers::{names_apart, names_differ};
use crate::kept::pairs::all_apart;
use crate::kept::texts::texts_differ;
use cx_base::List;

/// Whether there are fewer than 2^32 of each.
fn are_few(
    forms: &List<Form>,
    fns: &List<FnType>,
    allocs: &List<AllocType>,
    globals: &List<GlobalType>,
) -> bool
    ensures { IsTrue result ↔ ((length forms.now < 2 ^ 32) × (length fns.now < 2 ^ 32) × (length allocs.now < 2 ^ 32) × (length globals.now < 2 ^ 32)) }
{
    forms.len() < 4294967296
        && fns.len() < 4294967296
        && allocs.len() < 4294967296
        && globals.len() < 4294967296
}

/// Whether no two of the names are equal. Where there is no memory to number them they are compared
/// one by one.
fn none_equal(names: &List<List<u8>>) -> bool
    requires { length names.now < 2 ^ 32 }
    ensures { IsTrue result ↔ AllPairs (λ a b. a ≢ b) names.now }
{
    match texts_differ(names.alloc(), names.as_slice()) {
        Ok(differ) => differ,
        Err(_) => all_apart(names.as_slice()),
    }
}

/// Whether each is a name of fewer than 2^32 bytes, and no two are equal.
fn names_kept(names: &List<List<u8>>) -> bool
    requires { length names.now < 2 ^ 32 }
    ensures { IsTrue result ↔ (All (λ n. length n < 2 ^ 32) names.now × All IsName names.now × AllPairs (λ a b. a ≢ b) names.now) }
{
    are_short(names.as_slice()) && are_names(names.as_slice()) && none_equal(names)
}

/// Whether no two functions have one name.
fn fns_differ(fns: &List<FnType>) -> bool
    ensures { IsTrue result ↔ AllPairs (λ f g. f.name ≢ g.name) fns.now }
{
    match names_differ(fns.alloc(), fns.as_slice()) {
        Ok(differ) => differ,
        Err(_) => all_apart(fns.as_slice()),
    }
}

/// Whether no two globals have one name.
fn globals_differ(globals: &List<GlobalType>) -> bool
    ensures { IsTrue result ↔ AllPairs (λ g h. g.name ≢ h.name) globals.now }
{
    match names_differ(globals.alloc(), globals.as_slice()) {
        Ok(differ) => differ,
        Err(_) => all_apart(globals.as_slice()),
    }
}

/// Whether no function has an allocator's name.
fn fns_no_allocs(fns: &List<FnType>, allocs: &List<AllocType>) -> bool
    ensures { IsTrue result ↔ All (λ f. All (λ a. f.name ≢ a.name) allocs.now) fns.now }
{
    match names_apart(fns.alloc(), fns.as_slice(), allocs.as_slice()) {
        Ok(apart) => apart,
        Err(_) => are_no_allocs(fns.as_slice(), allocs.as_slice()),
    }
}

/// Whether no two functions have one name, no two globals have one, no two allocators are for one
/// call, and no function has an allocator's name.
fn differ(fns: &List<FnType>, allocs: &List<AllocType>, globals: &List<GlobalType>) -> bool
    ensures { IsTrue result ↔ (AllPairs (λ f g. f.name ≢ g.name) fns.now × AllPairs (λ g h. g.name ≢ h.name) globals.now × AllPairs (λ a b. SameCall a b → ⊥) allocs.now × All (λ f. All (λ a. f.name ≢ a.name) allocs.now) fns.now) }
{
    fns_differ(fns)
        && globals_differ(globals)
        && all_apart(allocs.as_slice())
        && fns_no_allocs(fns, allocs)
}

/// Whether each form, function, allocator and global keeps its facts.
fn each_kept(
    forms: &List<Form>,
    fns: &List<FnType>,
    allocs: &List<AllocType>,
    globals: &List<GlobalType>,
) -> bool
    ensures { IsTrue result ↔ (All (FormKept forms.now) forms.now × All (FnKept forms.now) fns.now × All (AllocKept forms.now) allocs.now × All (GlobalKept forms.now) globals.now) }
{
    let forms = forms.as_slice();
    forms_kept(forms)
        && fns_kept(forms, fns.as_slice())
        && allocs_kept(forms, allocs.as_slice())
        && globals_kept(forms, globals.as_slice())
}

/// Whether all facts of rules hold.
pub(crate) fn are_kept(
    names: &List<List<u8>>,
    forms: &List<Form>,
    fns: &List<FnType>,
    allocs: &List<AllocType>,
    globals: &List<GlobalType>,
) -> bool
    ensures { IsTrue result ↔ Kept names.now forms.now fns.now allocs.now globals.now }
{
    names.len() == forms.len()
        && are_few(forms, fns, allocs, globals)
        && names_kept(names)
        && differ(fns, allocs, globals)
        && each_kept(forms, fns, allocs, globals)
}
