ghost use Rattle.cx_snumber.specs.Law.{TypedIsSmall};

/// A function with its types has only numbers that it had before, and those of enumeration constants:
/// where these have absolute values of at most 2^96, so have its own.
pub fn typed_is_small()
    ensures small { TypedIsSmall }
{}
