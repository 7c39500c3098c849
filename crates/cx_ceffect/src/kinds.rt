// What a lexeme can be at each place of an effect.

ghost use Rattle.std.specs.Prelude.{◌≡◌};
ghost use Rattle.cx_cword.specs.declared.mark.Mark.TheVariants as m;
ghost use Rattle.cx_ceffect.specs.Effects as grammar;
ghost use Rattle.cx_ceffect.specs.Kinds as spec;
ghost use Rattle.cx_cword.specs.Marks.{fits};

use cx_ctree::Binary;
use cx_cword::{Keyword, LexemeKind, Punctuator};

/// What follows the left side of an effect.
#[derive(Clone, Copy, Debug, PartialEq, Eq)]
pub enum After {
    Assign,
    /// The operator of a compound assignment.
    Update(Binary),
    /// The operator that `++` or `--` stands for.
    Step(Binary),
    Other,
}

/// What follows an item of a list.
#[derive(Clone, Copy, Debug, PartialEq, Eq)]
pub enum Separator {
    Comma,
    Close,
    Other,
}

fn after_mark(mark: Punctuator) -> After
    ensures { result ≡ spec.after_mark mark }
{
    match mark {
        Punctuator::Assign => After::Assign,
        Punctuator::MulAssign => After::Update(Binary::Mul),
        Punctuator::DivAssign => After::Update(Binary::Div),
        Punctuator::RemAssign => After::Update(Binary::Rem),
        Punctuator::AddAssign => After::Update(Binary::Add),
        Punctuator::SubAssign => After::Update(Binary::Sub),
        Punctuator::ShlAssign => After::Update(Binary::Shl),
        Punctuator::ShrAssign => After::Update(Binary::Shr),
        Punctuator::AndAssign => After::Update(Binary::BitAnd),
        Punctuator::XorAssign => After::Update(Binary::BitXor),
        Punctuator::OrAssign => After::Update(Binary::BitOr),
        Punctuator::Increment => After::Step(Binary::Add),
        Punctuator::Decrement => After::Step(Binary::Sub),
        _ => After::Other,
    }
}

pub fn after_of(kind: LexemeKind) -> After
    ensures { result ≡ spec.after_of kind }
{
    match kind {
        LexemeKind::Punctuator(mark) => after_mark(mark),
        _ => After::Other,
    }
}

fn stepped_by(mark: Punctuator) -> Option<Binary>
    ensures { result ≡ grammar.stepped_by mark }
{
    match mark {
        Punctuator::Increment => Some(Binary::Add),
        Punctuator::Decrement => Some(Binary::Sub),
        _ => None,
    }
}

/// The operator that `++` or `--` stands for.
pub fn step_of(kind: LexemeKind) -> Option<Binary>
    ensures { result ≡ spec.step_of kind }
{
    match kind {
        LexemeKind::Punctuator(mark) => stepped_by(mark),
        _ => None,
    }
}

pub fn separator_of(kind: LexemeKind) -> Separator
    ensures { result ≡ spec.separator_of kind }
{
    match kind {
        LexemeKind::Punctuator(Punctuator::Comma) => Separator::Comma,
        LexemeKind::Punctuator(Punctuator::CloseParen) => Separator::Close,
        _ => Separator::Other,
    }
}

fn no_prefix(mark: Punctuator) -> bool
    ensures { result ≡ spec.no_prefix mark }
{
    match mark {
        Punctuator::Plus => false,
        Punctuator::Minus => false,
        Punctuator::Tilde => false,
        Punctuator::Bang => false,
        Punctuator::Star => false,
        Punctuator::Ampersand => false,
        _ => true,
    }
}

/// Whether a unary expression that begins with this lexeme is a postfix expression: it is no
/// operator that stands in front.
pub fn begins_postfix(kind: LexemeKind) -> bool
    ensures { result ≡ spec.begins_postfix kind }
{
    match kind {
        LexemeKind::Keyword(Keyword::SizeOf) => false,
        LexemeKind::Punctuator(mark) => no_prefix(mark),
        _ => true,
    }
}

pub fn is_open(kind: LexemeKind) -> bool
    ensures { result ≡ fits m.OpenParen kind }
{
    match kind {
        LexemeKind::Punctuator(Punctuator::OpenParen) => true,
        _ => false,
    }
}

pub fn is_close(kind: LexemeKind) -> bool
    ensures { result ≡ fits m.CloseParen kind }
{
    match kind {
        LexemeKind::Punctuator(Punctuator::CloseParen) => true,
        _ => false,
    }
}
