ghost use Rattle.std.specs.Prelude.{◌≡◌, ◌<◌, ◌-◌, ◌^◌, IfOk};
ghost use Rattle.cx_citem.specs.Items as spec;

use cx_base::{List, NoMemory};
use cx_cword::{Lexeme, LexemeKind, Punctuator, split};
use std::alloc::Global;

fn is_word(kind: LexemeKind) -> bool
    ensures { result ≡ spec.is_word kind }
{
    matches!(
        kind,
        LexemeKind::Keyword(_) | LexemeKind::Name(_) | LexemeKind::Attributive(_)
    )
}

// How many `[` are open after a lexeme inside a group.
fn inside_after(n: usize, kind: LexemeKind) -> usize
    requires { n < 2 ^ 64 - 1 }
    ensures { result ≡ spec.inside_after n kind }
{
    match kind {
        LexemeKind::Punctuator(Punctuator::OpenBracket) => n + 1,
        LexemeKind::Punctuator(Punctuator::CloseBracket) => n.saturating_sub(1),
        _ => n,
    }
}

// How many of the brackets `{` and `[` are open after a lexeme.
fn covered_after(n: usize, kind: LexemeKind) -> usize
    requires { n < 2 ^ 64 - 1 }
    ensures { result ≡ spec.covered_after n kind }
{
    match kind {
        LexemeKind::Punctuator(Punctuator::OpenBrace | Punctuator::OpenBracket) => n + 1,
        LexemeKind::Punctuator(Punctuator::CloseBrace | Punctuator::CloseBracket) => {
            n.saturating_sub(1)
        }
        _ => n,
    }
}

// Whether after groups in `[ ]` and any number of `)` comes a `(`.
fn calls_after(lexemes: &[Lexeme]) -> bool
    ensures { result ≡ spec.calls_after 0 lexemes.now }
{
    let mut inside = 0;
    let mut rest = lexemes;
    while let Some((o, after)) = split(rest) {
        if inside > 0 {
            inside = inside_after(inside, o.kind);
        } else {
            match o.kind {
                LexemeKind::Punctuator(Punctuator::OpenParen) => return true,
                LexemeKind::Punctuator(Punctuator::CloseParen) => {}
                LexemeKind::Punctuator(Punctuator::OpenBracket) => inside = 1,
                _ => return false,
            }
        }
        rest = after;
    }
    false
}

/// The words by which the lexemes of an item name functions: outside `{ }` and `[ ]`, and followed,
/// groups in `[ ]` aside, by any number of `)` and then by `(`.
pub fn naming(alloc: Global, lexemes: &[Lexeme]) -> Result<List<Lexeme>, NoMemory>
    ensures { IfOk result (λ words. words ≡ spec.naming 0 lexemes.now) }
{
    let mut words = List::new(alloc);
    let mut covered = 0;
    let mut rest = lexemes;
    while let Some((o, after)) = split(rest) {
        if covered == 0 && is_word(o.kind) && calls_after(after) {
            words.push(o)?;
        }
        covered = covered_after(covered, o.kind);
        rest = after;
    }
    Ok(words)
}
