ghost use Rattle.cx_cnumber.specs.Law.{ReadIsSmall};

/// In what a C file is read as each number in a function, and each enumeration constant, has an absolute
/// value of at most 2^96: the file has no greater one (C11 6.4.4.1, 6.7.2.2).
pub fn read_is_small()
    ensures small { ReadIsSmall }
{}
