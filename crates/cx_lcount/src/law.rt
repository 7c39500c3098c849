ghost use Rattle.cx_lcount.specs.Numbers.{BlocksCounted, LocalsCounted};

/// The code of a function has one block more than its body starts, and as many locals as the function
/// names and its body needs beside them. The tree is fine: locals exist, no name is left, operators
/// take their operands, and calls have as many arguments as their functions have parameters.
pub fn numbers_of_code()
    ensures blocks { BlocksCounted }
    ensures locals { LocalsCounted }
{}
