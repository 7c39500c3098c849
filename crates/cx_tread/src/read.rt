ghost use Rattle.std.specs.Prelude.{◌≤◌, ◌^◌, length};
ghost use Rattle.cx_tread.specs.TypeFiles.{ReadsTypes};

use crate::fault::TypeFault;
use cx_ctree::Unit;
use cx_tarity::wrong_arity;
use cx_tbinders::undetermined;
use cx_tdoubled::doubled_name;
use cx_tforms::faulty_form;
use cx_tnames::unknown_name;
use cx_tparse::parse;
use cx_tsizes::bad_size;
use cx_tsyn::Surface;
use std::alloc::Global;

/// Reads a type file beside a C file of this unit: its only tree, where the text is derived by the
/// grammar and keeps all conditions; else the first that fails, at its first place.
/// Each bracket that is open takes some of the stack, and no more than 100 levels are read.
#[tactic(auto, using(crate::proofs::Laws::refused, crate::proofs::Laws::refused_of, crate::proofs::Laws::faulty, crate::proofs::Laws::unknown, crate::proofs::Laws::doubled, crate::proofs::Laws::arity, crate::proofs::Laws::open_binder, crate::proofs::Laws::wrong_size, crate::proofs::Laws::accepted))]
pub fn read_types(alloc: Global, bytes: &[u8], unit: &Unit) -> Result<Surface, TypeFault>
    requires few { length bytes.now ≤ 2 ^ 24 }
    ensures { ReadsTypes unit.now bytes.now result }
{
    let surface = parse(alloc, bytes, unit)?;
    if let Some(span) = faulty_form(alloc, &surface)? {
        return Err(TypeFault::Syntax(span));
    }
    if let Some(span) = unknown_name(alloc, &surface, unit)? {
        return Err(TypeFault::UnknownName(span));
    }
    if let Some(span) = doubled_name(alloc, &surface)? {
        return Err(TypeFault::Doubled(span));
    }
    if let Some(span) = wrong_arity(alloc, &surface, unit)? {
        return Err(TypeFault::Arity(span));
    }
    if let Some(span) = undetermined(alloc, &surface)? {
        return Err(TypeFault::Undetermined(span));
    }
    if let Some(span) = bad_size(alloc, &surface, unit)? {
        return Err(TypeFault::BadSize(span));
    }
    Ok(surface)
}
