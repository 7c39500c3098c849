ghost use Rattle.cx_gline.specs.Law.{ConstantsAreSmall, CallsHaveArguments};

/// The number of each constant in the code of a function may be the constant of a linear form, where
/// the numbers in the function may, and each call has as many arguments as the function of its name
/// has parameters. The tree is fine: locals exist, no name is left, operators take their operands, and
/// calls have as many arguments as their functions have parameters.
pub fn lines_of_code()
    ensures constants { ConstantsAreSmall }
    ensures calls { CallsHaveArguments }
{}
