ghost use Rattle.cx_sfine.specs.Law.{TypedIsFine, TypedReturnsAgree};

/// A function that keeps the rules on types is one whose code does what it does: each local in it
/// exists, no name is left, operators take their operands, calls have as many arguments as their
/// functions have parameters, and jumps stand in loops and switches. Its returns give a value exactly
/// where it has a result.
pub fn typed_is_fine()
    ensures fine { TypedIsFine }
    ensures returns { TypedReturnsAgree }
{}
