//! What holds of the runs of every code.

ghost use Rattle.cx_goto.specs.Steps.{MoreSteps};

/// A run that has ended ends the same way with more steps.
pub fn more_steps()
    ensures same { MoreSteps }
{}
