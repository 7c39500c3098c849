use cx_base::Span;
use cx_tread::TypeFault;
use std::test::Fail;

/// What stands at bytes 5 and 6.
const HERE: Span = Span { first: 5, past: 7 };

/// Faults, and what they are shown as.
const SHOWN: [(TypeFault, &str); 11] = [
    (
        TypeFault::OpenComment(5),
        "the comment at byte 5 has no end",
    ),
    (
        TypeFault::OpenText(5),
        "the quotation mark at byte 5 has no partner on its line",
    ),
    (TypeFault::BadByte(5), "the byte at 5 begins no token"),
    (
        TypeFault::TooDeep(HERE),
        "the bracket at byte 5 opens more than 100 levels",
    ),
    (
        TypeFault::Syntax(HERE),
        "what stands at byte 5 is not what a type file has there",
    ),
    (
        TypeFault::UnknownName(HERE),
        "the name at byte 5 is not known",
    ),
    (
        TypeFault::Doubled(HERE),
        "the name at byte 5 is declared twice",
    ),
    (
        TypeFault::Arity(HERE),
        "the number of what stands at byte 5 is wrong",
    ),
    (
        TypeFault::Undetermined(HERE),
        "what stands at byte 5 is not determined",
    ),
    (
        TypeFault::BadSize(HERE),
        "the size of what stands at byte 5 is wrong",
    ),
    (TypeFault::NoMemory, "out of memory"),
];

#[test]
fn faults_are_shown(rt: HostRuntime) -> Result<(), Fail> {
    for (fault, expected) in &SHOWN {
        let shown = format!(in rt.alloc(); "{fault}")?;
        assert_eq!(&rt; shown.as_str(), *expected);
    }
    Ok(())
}
