ghost use Rattle.std.specs.Prelude.{◌≡◌, map};
ghost use Rattle.cx_cword.specs.Words as spec;

/// A word of the grammar that is no name: a keyword of C11 (6.4.1), or a word that GNU C adds.
#[derive(Clone, Copy, Debug, PartialEq, Eq)]
pub enum Keyword {
    Void,
    Char,
    Short,
    Int,
    Long,
    /// `signed`, `__signed` or `__signed__`
    Signed,
    Unsigned,
    Struct,
    Union,
    Enum,
    Typedef,
    Extern,
    Static,
    Inline,
    Register,
    /// A word that is passed over among the words of a type: a qualifier, `_Noreturn`,
    /// `__extension__`, or another spelling of one of these or of `inline`.
    Skipped,
    /// `__attribute__`
    Attribute,
    /// `asm` or `__asm__`
    Asm,
    SizeOf,
    If,
    Else,
    While,
    Do,
    For,
    Switch,
    Case,
    Default,
    Break,
    Continue,
    Return,
    /// A keyword that has no place in the grammar.
    Reserved,
}

/// A punctuator (C11 6.4.6).
#[derive(Clone, Copy, Debug, PartialEq, Eq)]
pub enum Punctuator {
    Ellipsis,
    ShlAssign,
    ShrAssign,
    Arrow,
    Increment,
    Decrement,
    Shl,
    Shr,
    LessEqual,
    GreaterEqual,
    Equal,
    NotEqual,
    AndAnd,
    OrOr,
    AddAssign,
    SubAssign,
    MulAssign,
    DivAssign,
    RemAssign,
    AndAssign,
    OrAssign,
    XorAssign,
    OpenBrace,
    CloseBrace,
    OpenBracket,
    CloseBracket,
    OpenParen,
    CloseParen,
    Dot,
    Semicolon,
    Colon,
    Comma,
    Question,
    Plus,
    Minus,
    Star,
    Slash,
    Percent,
    Ampersand,
    Bar,
    Caret,
    Tilde,
    Bang,
    Less,
    Greater,
    Assign,
    Hash,
}

const KEYWORDS: [(&[u8], Keyword); 83] = [
    (b"void", Keyword::Void),
    (b"char", Keyword::Char),
    (b"short", Keyword::Short),
    (b"int", Keyword::Int),
    (b"long", Keyword::Long),
    (b"signed", Keyword::Signed),
    (b"unsigned", Keyword::Unsigned),
    (b"struct", Keyword::Struct),
    (b"union", Keyword::Union),
    (b"enum", Keyword::Enum),
    (b"typedef", Keyword::Typedef),
    (b"extern", Keyword::Extern),
    (b"static", Keyword::Static),
    (b"inline", Keyword::Inline),
    (b"register", Keyword::Register),
    (b"const", Keyword::Skipped),
    (b"volatile", Keyword::Skipped),
    (b"restrict", Keyword::Skipped),
    (b"_Noreturn", Keyword::Skipped),
    (b"sizeof", Keyword::SizeOf),
    (b"if", Keyword::If),
    (b"else", Keyword::Else),
    (b"while", Keyword::While),
    (b"do", Keyword::Do),
    (b"for", Keyword::For),
    (b"switch", Keyword::Switch),
    (b"case", Keyword::Case),
    (b"default", Keyword::Default),
    (b"break", Keyword::Break),
    (b"continue", Keyword::Continue),
    (b"return", Keyword::Return),
    (b"auto", Keyword::Reserved),
    (b"double", Keyword::Reserved),
    (b"float", Keyword::Reserved),
    (b"goto", Keyword::Reserved),
    (b"_Alignas", Keyword::Reserved),
    (b"_Alignof", Keyword::Reserved),
    (b"_Atomic", Keyword::Reserved),
    (b"_Bool", Keyword::Reserved),
    (b"_Complex", Keyword::Reserved),
    (b"_Generic", Keyword::Reserved),
    (b"_Imaginary", Keyword::Reserved),
    (b"_Static_assert", Keyword::Reserved),
    (b"_Thread_local", Keyword::Reserved),
    (b"__extension__", Keyword::Skipped),
    (b"__restrict", Keyword::Skipped),
    (b"__restrict__", Keyword::Skipped),
    (b"__const", Keyword::Skipped),
    (b"__const__", Keyword::Skipped),
    (b"__inline", Keyword::Skipped),
    (b"__inline__", Keyword::Skipped),
    (b"__volatile", Keyword::Skipped),
    (b"__volatile__", Keyword::Skipped),
    (b"__signed", Keyword::Signed),
    (b"__signed__", Keyword::Signed),
    (b"__attribute__", Keyword::Attribute),
    (b"__asm__", Keyword::Asm),
    (b"asm", Keyword::Asm),
    (b"typeof", Keyword::Reserved),
    (b"__RTL", Keyword::Reserved),
    (b"__seg_fs", Keyword::Reserved),
    (b"__seg_gs", Keyword::Reserved),
    (b"__alignof", Keyword::Reserved),
    (b"__alignof__", Keyword::Reserved),
    (b"__asm", Keyword::Reserved),
    (b"__attribute", Keyword::Reserved),
    (b"__auto_type", Keyword::Reserved),
    (b"__auto_type__", Keyword::Reserved),
    (b"__complex", Keyword::Reserved),
    (b"__complex__", Keyword::Reserved),
    (b"__extension", Keyword::Reserved),
    (b"__imag", Keyword::Reserved),
    (b"__imag__", Keyword::Reserved),
    (b"__int128", Keyword::Reserved),
    (b"__int128__", Keyword::Reserved),
    (b"__label", Keyword::Reserved),
    (b"__label__", Keyword::Reserved),
    (b"__real", Keyword::Reserved),
    (b"__real__", Keyword::Reserved),
    (b"__thread", Keyword::Reserved),
    (b"__thread__", Keyword::Reserved),
    (b"__typeof", Keyword::Reserved),
    (b"__typeof__", Keyword::Reserved),
];

const PUNCTUATORS: [(&[u8], Punctuator); 47] = [
    (b"...", Punctuator::Ellipsis),
    (b"<<=", Punctuator::ShlAssign),
    (b">>=", Punctuator::ShrAssign),
    (b"->", Punctuator::Arrow),
    (b"++", Punctuator::Increment),
    (b"--", Punctuator::Decrement),
    (b"<<", Punctuator::Shl),
    (b">>", Punctuator::Shr),
    (b"<=", Punctuator::LessEqual),
    (b">=", Punctuator::GreaterEqual),
    (b"==", Punctuator::Equal),
    (b"!=", Punctuator::NotEqual),
    (b"&&", Punctuator::AndAnd),
    (b"||", Punctuator::OrOr),
    (b"+=", Punctuator::AddAssign),
    (b"-=", Punctuator::SubAssign),
    (b"*=", Punctuator::MulAssign),
    (b"/=", Punctuator::DivAssign),
    (b"%=", Punctuator::RemAssign),
    (b"&=", Punctuator::AndAssign),
    (b"|=", Punctuator::OrAssign),
    (b"^=", Punctuator::XorAssign),
    (b"{", Punctuator::OpenBrace),
    (b"}", Punctuator::CloseBrace),
    (b"[", Punctuator::OpenBracket),
    (b"]", Punctuator::CloseBracket),
    (b"(", Punctuator::OpenParen),
    (b")", Punctuator::CloseParen),
    (b".", Punctuator::Dot),
    (b";", Punctuator::Semicolon),
    (b":", Punctuator::Colon),
    (b",", Punctuator::Comma),
    (b"?", Punctuator::Question),
    (b"+", Punctuator::Plus),
    (b"-", Punctuator::Minus),
    (b"*", Punctuator::Star),
    (b"/", Punctuator::Slash),
    (b"%", Punctuator::Percent),
    (b"&", Punctuator::Ampersand),
    (b"|", Punctuator::Bar),
    (b"^", Punctuator::Caret),
    (b"~", Punctuator::Tilde),
    (b"!", Punctuator::Bang),
    (b"<", Punctuator::Less),
    (b">", Punctuator::Greater),
    (b"=", Punctuator::Assign),
    (b"#", Punctuator::Hash),
];

pub fn same_text(a: &[u8], b: &[u8]) -> bool
    ensures { result ≡ spec.same_text a.now b.now }
{
    a == b
}

/// What the table has for the text: that of its first entry with this text, if there is one.
pub fn look_up<T: Copy>(mut table: &[(&[u8], T)], text: &[u8]) -> Option<T>
    ensures { result ≡ spec.look_up (map (λ k. (k.0.now, k.1)) table.entry.now) text.now }
{
    while let [entry, rest @ ..] = table {
        if same_text(entry.0, text) {
            return Some(entry.1);
        }
        table = rest;
    }
    None
}

/// The keyword that the text is, if it is one.
pub fn keyword_of(text: &[u8]) -> Option<Keyword>
    ensures { result ≡ spec.keyword_of text.now }
{
    look_up(&KEYWORDS, text)
}

/// The punctuator that the text is, if it is one.
pub fn punctuator_of(text: &[u8]) -> Option<Punctuator>
    ensures { result ≡ spec.punctuator_of text.now }
{
    look_up(&PUNCTUATORS, text)
}
