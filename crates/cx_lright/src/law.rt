ghost use Rattle.cx_lright.specs.Right.{CodeIsRight};

/// The code of a function does what the function does: for all arguments, turns, memories, answers
/// of callees, blocks of allocators and changes by others, a run of the code ends in the same way,
/// with the same memory, after the same accesses, calls and allocations. The tree is fine: locals
/// exist, no name is left, operators take their operands, and calls have as many arguments as their
/// functions have parameters. Callees that are declared with a result give one.
pub fn code_is_right()
    ensures right { CodeIsRight }
{}
