ghost use Rattle.cx_lwhole.specs.Law.{CodeIsWhole};

/// The blocks and locals that the code of a function names are there, and its returns have a local
/// exactly where the function has a result. The tree is fine: locals exist, no name is left, operators
/// take their operands, and calls have as many arguments as their functions have parameters. Its
/// returns give a value exactly where the function has a result.
pub fn code_is_whole()
    ensures whole { CodeIsWhole }
{}
