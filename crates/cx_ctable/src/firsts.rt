ghost use Rattle.std.specs.Prelude.{◌≡◌, map, nat_eq, option_map, OnOk};
ghost use Rattle.std.specs.Map.{lookup};
ghost use Rattle.cx_ctree.specs.Types.{type_tree};
ghost use Rattle.cx_ctree.specs.Decls.{signature_tree};
ghost use Rattle.cx_ctable.specs.Firsts.{with_first};

use cx_base::NoMemory;
use cx_ctree::{CType, Signature};
use indexmap::IndexMap;

/// Adds a signature where the name has none.
pub fn add_function<'a>(
    functions: &mut IndexMap<u32, &'a Signature>,
    s: &'a Signature,
) -> Result<(), NoMemory>
    ensures { OnOk result (map (λ e. (e.0, signature_tree e.1.now)) functions.new.entries ≡ with_first (map (λ e. (e.0, signature_tree e.1.now)) functions.old.entries) ((signature_tree s.now).name, signature_tree s.now)) }
{
    if functions.contains_key(&s.name) {
        return Ok(());
    }
    functions.insert(s.name, s)?;
    Ok(())
}

/// Adds the type of an object where the name has none.
pub fn add_object<'a>(
    objects: &mut IndexMap<u32, &'a CType>,
    n: u32,
    t: &'a CType,
) -> Result<(), NoMemory>
    ensures { OnOk result (map (λ e. (e.0, type_tree e.1.now)) objects.new.entries ≡ with_first (map (λ e. (e.0, type_tree e.1.now)) objects.old.entries) (n, type_tree t.now)) }
{
    if objects.contains_key(&n) {
        return Ok(());
    }
    objects.insert(n, t)?;
    Ok(())
}

/// Adds a place where the name has none.
pub fn add_place(places: &mut IndexMap<u32, usize>, n: u32, at: usize) -> Result<(), NoMemory>
    ensures { OnOk result (places.new.entries ≡ with_first places.old.entries (n, at)) }
{
    if places.contains_key(&n) {
        return Ok(());
    }
    places.insert(n, at)?;
    Ok(())
}
