ghost use Rattle.std.specs.Prelude.{◌≤◌};

/// A piece of a text, by byte offsets from the first byte of the text: from `first` on, up to but
/// not with `past`.
#[derive(Clone, Copy, Debug, PartialEq, Eq)]
pub struct Span {
    pub first: u32,
    pub past: u32,
    ghost ordered: { first ≤ past },
}
