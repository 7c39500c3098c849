ghost use Rattle.std.specs.Prelude.{◌≡◌, [], ◌∷◌, reverse, OnOk, MatchOption};
ghost use Rattle.cx_citem.specs.Items as spec;

use crate::bracket::{Bracket, Opened, closes, is_close_paren, is_open_brace, opens, same_bracket};
use cx_base::{List, NoMemory};
use cx_cword::{LexemeKind, Punctuator};
use std::alloc::Global;

/// What is known between two lexemes: the brackets that are open, the last one at the end; whether
/// the lexeme before is a `)`; whether an item begins here.
#[derive(Drop)]
pub struct Nesting {
    pub open: List<Opened>,
    pub after_paren: bool,
    pub begins: bool,
}

fn push_open(stack: &mut List<Opened>, opened: Opened) -> Result<(), NoMemory>
    ensures ok { OnOk result (reverse stack.new ≡ opened ∷ reverse stack.old) }
{
    stack.push(opened)
}

#[tactic(auto, using(crate::proofs::Stack::reversed))]
fn drop_last(stack: &mut List<Opened>)
    ensures { reverse stack.new ≡ spec.without_last (reverse stack.old) }
{
    stack.cut(stack.len().saturating_sub(1));
}

// The last bracket that is open.
fn last_open(stack: &List<Opened>) -> Option<Opened>
    ensures { MatchOption result (reverse stack.now ≡ []) (λ w. reverse stack.now ≡ w ∷ spec.without_last (reverse stack.now)) }
{
    stack.as_slice().last().copied()
}

fn closes_last(stack: &List<Opened>, closing: Option<Bracket>) -> bool
    ensures { result ≡ spec.closes_last (reverse stack.now) closing }
{
    match last_open(stack) {
        None => false,
        Some(w) => match closing {
            None => false,
            Some(b) => same_bracket(w.kind, b),
        },
    }
}

fn closes_body(stack: &List<Opened>) -> bool
    ensures { result ≡ spec.closes_body (reverse stack.now) }
{
    match last_open(stack) {
        None => false,
        Some(w) => stack.len() == 1 && w.follows && same_bracket(w.kind, Bracket::Brace),
    }
}

fn ends_item(stack: &List<Opened>, kind: LexemeKind) -> bool
    ensures { result ≡ spec.ends_item (reverse stack.now) kind }
{
    match kind {
        LexemeKind::Punctuator(Punctuator::Semicolon) => stack.len() == 0,
        LexemeKind::Punctuator(Punctuator::CloseBrace) => closes_body(stack),
        _ => false,
    }
}

impl Nesting {
    ghost use Rattle.cx_citem.specs.Scanning.{place_of, is_deep, is_misplaced};

    /// Before the first lexeme.
    pub fn new(alloc: Global) -> Nesting
        ensures { place_of result ≡ spec.beginning }
    {
        Nesting {
            open: List::new(alloc),
            after_paren: false,
            begins: true,
        }
    }

    /// Whether the lexeme that stands here opens the 101st level.
    pub fn is_deep(&self, kind: LexemeKind) -> bool
        ensures { result ≡ is_deep (place_of self.now) kind }
    {
        opens(kind).is_some() && self.open.len() > 99
    }

    /// Whether the lexeme that stands here is a closing bracket without a partner, or a brace that
    /// begins an item.
    pub fn is_misplaced(&self, kind: LexemeKind) -> bool
        ensures { result ≡ is_misplaced (place_of self.now) kind }
    {
        let closing = closes(kind);
        (closing.is_some() && !closes_last(&self.open, closing))
            || (self.begins && is_open_brace(kind))
    }

    /// Whether the lexeme that stands here ends an item.
    pub fn ends_item(&self, kind: LexemeKind) -> bool
        ensures { result ≡ spec.ends_item (place_of self.now).open_ kind }
    {
        ends_item(&self.open, kind)
    }

    /// Goes over the lexeme that stands here.
    pub fn pass(&mut self, kind: LexemeKind) -> Result<(), NoMemory>
        ensures { OnOk result (place_of self.new ≡ spec.next_place (place_of self.old) kind) }
    {
        let ends = ends_item(&self.open, kind);
        match opens(kind) {
            Some(bracket) => {
                let opened = Opened {
                    kind: bracket,
                    follows: self.after_paren,
                };
                push_open(&mut self.open, opened)?;
            }
            None => {
                if closes_last(&self.open, closes(kind)) {
                    drop_last(&mut self.open);
                }
            }
        }
        self.after_paren = is_close_paren(kind);
        self.begins = ends;
        Ok(())
    }
}
