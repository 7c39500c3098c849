//! What holds of accesses and of changes by others.

ghost use Rattle.cx_world.specs.Laws.{ReadsLieInside, WritesLieInside, OnlySharedChange};

/// An access that is done lies inside one region of the memory, and is listed.
pub fn accesses_lie_inside()
    ensures reads { ReadsLieInside }
    ensures writes { WritesLieInside }
{}

/// Where no region type is shared, others change nothing.
pub fn only_shared_change()
    ensures nothing { OnlySharedChange }
{}
