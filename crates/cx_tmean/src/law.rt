ghost use Rattle.cx_tmean.specs.Law.{ArgumentsStayMet, HoldsInFixedSize, RegionsStayTyped, TakesFixedSize};

/// What holds in a memory holds in each memory that extends it: bytes go on to hold their region's
/// type, and numbers to meet the type of a function, where regions are added.
pub fn holds_in_more_regions()
    ensures regions { RegionsStayTyped }
    ensures arguments { ArgumentsStayMet }
{}

/// A type in which no size is wrong and no array has symbolic length takes a fixed number of bytes,
/// whatever its names stand for, and bytes that hold it are as many.
pub fn holds_in_fixed_size()
    ensures takes { TakesFixedSize }
    ensures holds { HoldsInFixedSize }
{}
