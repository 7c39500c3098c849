use cx_base::Token;

/// What the bytes read so far end in.
#[derive(Clone, Copy, Debug)]
pub enum Mode {
    /// No piece that may go on; true where the line has had only spaces and tabs, and did not begin
    /// inside a piece.
    Blank(bool),
    Name,
    /// A number; true after e, E, p or P.
    Number(bool),
    /// A character constant or a string literal that began with this mark; true after a backslash
    /// that takes the next byte with it.
    Quoted(u8, bool),
    /// This byte, which begins a punctuator or a comment.
    One(u8),
    /// These two bytes, which begin a punctuator, or are two points.
    Two(u8, u8),
    /// A comment between `/*` and `*/`; true after a star inside it.
    Comment(bool),
    /// A comment that began with `//`, or a line that began with `#`.
    Line,
}

/// What is kept from byte to byte: the mode, and where its piece began.
#[derive(Clone, Copy, Debug)]
pub struct State {
    pub mode: Mode,
    pub start: u32,
}

/// The tokens that a byte ends, in order, and the state after it.
#[derive(Clone, Copy, Debug)]
pub struct Turn {
    pub one: Option<Token>,
    pub two: Option<Token>,
    pub next: State,
}
