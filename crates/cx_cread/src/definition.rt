// Functions with their bodies (C11 6.9.1).

ghost use Rattle.std.specs.Prelude.{◌≡◌, ◌≤◌, ◌+◌, ◌^◌, length, option_map, IfOk, IfSome, IfNone, OnErr};
ghost use Rattle.cx_ctree.specs.Decls.{function_tree, signature_tree};
ghost use Rattle.cx_ctree.specs.Units.{unit_tree};
ghost use Rattle.cx_cword.specs.Reading.{Gives};
ghost use Rattle.cx_cname.specs.Known.{known_of, earlier_of, function_type};
ghost use Rattle.cx_cname.specs.Meanings.{may_be};
ghost use Rattle.cx_cname.specs.Changes.{past, SameFile};
ghost use Rattle.cx_cdecl.specs.Reading.{declarator_tree};
ghost use Rattle.cx_cread.specs.Reads.{IsDefinition};
ghost use Rattle.cx_cread.specs.Reading.{IsNoDefinition, with_known};
ghost use Rattle.cx_cread.specs.Definitions.{function_after, body_at, function_by, definition_at};

use crate::body::has_body;
use cx_base::{List, NoMemory, Span};
use cx_cdecl::declaration::{DeclaratorKind, declarator};
use cx_cdecl::member::specs;
use cx_cname::meaning::may_be_function;
use cx_cname::{Change, take_back};
use cx_cstmt::block;
use cx_ctree::{Function, Signature, Unit};
use cx_cword::{Lexeme, Stop, split};
use std::alloc::Global;

/// Whether the name is new, or declared as a function of this type.
fn may_be_declared(known: &Unit, sig: &Signature) -> bool
    ensures { result ≡ may_be (known_of known.now) (earlier_of known.now) sig.now.name (function_type (signature_tree sig.now)) }
{
    may_be_function(known, &[], sig)
}

/// Goes on after the declarator of a function: its body, after which nothing stands.
#[tactic(auto, unfolding(crate::specs::Definitions::body_at))]
fn function_body(
    alloc: Global,
    known: &mut Unit,
    changes: &mut List<Change>,
    turns: usize,
    sig: Signature,
    name_span: Span,
    lexemes: &[Lexeme],
) -> Result<Function, Stop>
    ensures value { Gives (λ f. function_after f (known_of known.new)) result (body_at turns (earlier_of known.old) (known_of known.old) name_span (signature_tree sig) lexemes.now) }
    ensures kept { past changes.new known.new ≡ past changes.old known.old }
    ensures items { known.new.items ≡ known.old.items }
{
    if !may_be_declared(known, &sig) {
        return Err(Stop::Unread);
    }
    if has_body(sig.name, known.items.as_slice()) {
        return Err(Stop::Unread);
    }
    let x = block(alloc, known, changes, turns, 400, lexemes)?;
    match split(x.rest) {
        None => Ok(Function {
            sig,
            body: x.tree,
            name_span,
        }),
        Some((_, _)) => Err(Stop::Unread),
    }
}

/// Goes on after a declarator, which is a function's.
fn function_of(
    alloc: Global,
    known: &mut Unit,
    changes: &mut List<Change>,
    turns: usize,
    kind: DeclaratorKind,
    name_span: Span,
    lexemes: &[Lexeme],
) -> Result<Function, Stop>
    ensures value { Gives (λ f. function_after f (known_of known.new)) result (function_by turns (earlier_of known.old) (known_of known.old) name_span lexemes.now (declarator_tree kind)) }
    ensures kept { past changes.new known.new ≡ past changes.old known.old }
    ensures items { known.new.items ≡ known.old.items }
{
    match kind {
        DeclaratorKind::Object(_, _) => Err(Stop::Unread),
        DeclaratorKind::Function(sig) => {
            function_body(alloc, known, changes, turns, sig, name_span, lexemes)
        }
    }
}

/// A function with its body that is all of the lexemes.
#[tactic(auto, unfolding(crate::specs::Definitions::definition_at))]
fn whole_function(
    alloc: Global,
    known: &mut Unit,
    changes: &mut List<Change>,
    turns: usize,
    lexemes: &[Lexeme],
) -> Result<Function, Stop>
    ensures value { Gives (λ f. function_after f (known_of known.new)) result (definition_at turns (earlier_of known.old) (known_of known.old) lexemes.now) }
    ensures kept { past changes.new known.new ≡ past changes.old known.old }
    ensures items { known.new.items ≡ known.old.items }
{
    let s = specs(alloc, known, changes, turns, turns, lexemes)?;
    if s.said.typedef_ {
        return Err(Stop::Unread);
    }
    let x = declarator(alloc, known, changes, turns, &s.ctype, s.height, s.rest)?;
    function_of(alloc, known, changes, turns, x.kind, x.lexeme.span, x.rest)
}

/// A function with its body; where there is none, the unit is as it was.
#[tactic(auto, using(cx_cname::proofs::Whole::back_ranked, cx_cname::proofs::Whole::back_is, cx_cname::proofs::Whole::back_file, cx_cname::proofs::Whole::same_file))]
fn whole(
    alloc: Global,
    known: &mut Unit,
    turns: usize,
    lexemes: &[Lexeme],
) -> Result<Option<Function>, NoMemory>
    ensures value { IfOk result (λ r. option_map (λ f. function_after f (known_of known.new)) r ≡ definition_at turns (earlier_of known.old) (known_of known.old) lexemes.now) }
    ensures none { IfOk result (λ r. IfNone r (unit_tree known.new ≡ unit_tree known.old)) }
    ensures err { OnErr result (unit_tree known.new ≡ unit_tree known.old) }
    ensures file { SameFile known.old known.new }
{
    let mut changes = List::new(alloc);
    match whole_function(alloc, known, &mut changes, turns, lexemes) {
        Err(Stop::NoMemory) => {
            take_back(known, changes.as_slice());
            Err(NoMemory)
        }
        Err(Stop::Unread) => {
            take_back(known, changes.as_slice());
            Ok(None)
        }
        Ok(function) => Ok(Some(function)),
    }
}

/// Reads a function with its body. The unit gets the tags, types and constants that it declares;
/// where no such function is derived, the unit is as it was.
pub fn definition(
    alloc: Global,
    lexemes: &[Lexeme],
    known: &mut Unit,
) -> Result<Option<Function>, NoMemory>
    requires { length known.old.tags + length lexemes.now ≤ 2 ^ 24 }
    ensures some { IfOk result (λ r. IfSome r (λ f. IsDefinition (earlier_of known.old) (known_of known.old) lexemes.now (function_tree f) (known_of known.new))) }
    ensures none { IfOk result (λ r. IfNone r (IsNoDefinition (earlier_of known.old) (known_of known.old) lexemes.now)) }
    ensures unchanged { IfOk result (λ r. IfNone r (unit_tree known.new ≡ unit_tree known.old)) }
    ensures kept { unit_tree known.new ≡ with_known (unit_tree known.old) (known_of known.new) }
    ensures few { length known.new.tags ≤ length known.old.tags + length lexemes.now }
{
    whole(alloc, known, 16 * lexemes.len() + 64, lexemes)
}
