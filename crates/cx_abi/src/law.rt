ghost use Rattle.std.specs.Prelude.{map};
ghost use Rattle.cx_ctree.specs.Units.{tags_of};
ghost use Rattle.cx_abi.specs.Recursion.{IsByMembers};

use cx_ctree::Unit;

/// What a tag of the unit consists of is what its members consist of, however deep tags stand in
/// one another.
#[tactic(auto, using(crate::proofs::Shapes::by_members))]
pub fn tags_are_by_members(unit: &Unit)
    ensures { IsByMembers (tags_of unit.now) }
{
    let _tags = &unit.tags;
}
