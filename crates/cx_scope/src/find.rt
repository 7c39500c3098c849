ghost use Rattle.std.specs.Prelude.{◌≡◌, map, reverse, OnOk};
ghost use Rattle.cx_scope.specs.Locals as spec;

use cx_base::NoMemory;
use indexmap::IndexMap;

/// The number that the name has in the block.
#[tactic(auto, using(crate::proofs::Blocks::number_found))]
pub fn number_in(block: &IndexMap<u32, u32>, name: u32) -> Option<u32>
    ensures { result ≡ spec.number_in block.now.entries name }
{
    match block.get(&name) {
        Some(number) => Some(*number),
        None => None,
    }
}

/// Declares the name in the block, with this number.
#[tactic(auto, using(crate::proofs::Blocks::name_inserted))]
pub fn add_name(block: &mut IndexMap<u32, u32>, name: u32, number: u32) -> Result<(), NoMemory>
    ensures { OnOk result (block.new.entries ≡ spec.with_name name number block.old.entries) }
{
    block.insert(name, number)?;
    Ok(())
}

/// The number that the name has in the last of the blocks that declares it.
#[tactic(auto, using(crate::proofs::Blocks::found_more))]
pub fn found_in(blocks: &[IndexMap<u32, u32>], name: u32) -> Option<u32>
    ensures { result ≡ spec.found_in (reverse (map (λ b. b.entries) blocks.now)) name }
{
    let mut found = None;
    for block in blocks {
        found = inner_first(number_in(block, name), found);
    }
    found
}

fn inner_first(inner: Option<u32>, outer: Option<u32>) -> Option<u32>
    ensures { result ≡ spec.inner_first inner outer }
{
    match inner {
        Some(number) => Some(number),
        None => outer,
    }
}
