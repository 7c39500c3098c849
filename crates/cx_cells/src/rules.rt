ghost use Rattle.cx_cells.specs.Kept.{Kept};
ghost use Rattle.cx_cells.specs.KeptProps.{Kept-prop};

use crate::calls::{AllocType, FnType, GlobalType};
use crate::form::Form;
use crate::kept::are_kept;
use cx_base::List;

/// The region types of a type file, each with its name, and the types of its functions, allocators
/// and globals. What they keep is the record `Kept` of `specs/Kept.antt`, fact by fact.
#[derive(Drop)]
pub struct Rules {
    /// The names of the region types.
    pub names: List<List<u8>>,
    /// The forms of the region types, in the order of their names.
    pub forms: List<Form>,
    pub fns: List<FnType>,
    pub allocs: List<AllocType>,
    pub globals: List<GlobalType>,
    ghost kept: { Kept names forms fns allocs globals } by { Kept-prop names forms fns allocs globals },
}

impl Rules {
    ghost use Rattle.std.specs.Prelude.{◌≡◌, ◌↔◌, IsSome, IfSome};

    /// The rules of these parts. None, and the parts are dropped, exactly where they do not keep all
    /// facts of `specs/Kept.antt`.
    pub fn new(
        names: List<List<u8>>,
        forms: List<Form>,
        fns: List<FnType>,
        allocs: List<AllocType>,
        globals: List<GlobalType>,
    ) -> Option<Rules>
        ensures exact { IsSome result ↔ Kept names forms fns allocs globals }
        ensures names { IfSome result (λ r. r.names ≡ names) }
        ensures forms { IfSome result (λ r. r.forms ≡ forms) }
        ensures fns { IfSome result (λ r. r.fns ≡ fns) }
        ensures allocs { IfSome result (λ r. r.allocs ≡ allocs) }
        ensures globals { IfSome result (λ r. r.globals ≡ globals) }
    {
        if !are_kept(&names, &forms, &fns, &allocs, &globals) {
            return None;
        }
        Some(Rules {
            names,
            forms,
            fns,
            allocs,
            globals,
        })
    }
}
