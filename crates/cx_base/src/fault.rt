/// What stops a run of a C function.
#[derive(Clone, Copy, Debug, PartialEq, Eq)]
pub enum FaultKind {
    /// A variable is read that has no value.
    Unset,
    /// The right side of `/` or `%` is 0, or the quotient is no number of its type (C11 6.5.5).
    Divisor,
    /// The right side of a shift is negative or not below the width of the left (C11 6.5.7).
    Shift,
    /// Memory is accessed outside every region.
    Access,
    /// A function is called whose type the call does not meet.
    Call,
    /// A function that has a result ends without `return` (C11 6.9.1).
    End,
}
