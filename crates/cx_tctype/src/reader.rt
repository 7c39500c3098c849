ghost use Rattle.std.specs.Prelude.{◌≡◌, IfOk};
ghost use Rattle.cx_ctree.specs.Types.{pointer, type_tree};
ghost use Rattle.cx_cname.specs.Known.{known_of};
ghost use Rattle.cx_reader.specs.Answers.{read};
ghost use Rattle.cx_reader.specs.Reading.{Gives};
ghost use Rattle.cx_reader.specs.Parts.{ReadsFront};
ghost use Rattle.cx_tctype.specs.Pointees as grammar;
ghost use Rattle.cx_tctype.specs.Pointees.{IsCType, EndsCType};
ghost use Rattle.cx_tctype.specs.Reading.{tail_at, ctype_at};
ghost use Rattle.cx_tctype.specs.Words.{pointee_tree};

use crate::base::base;
use crate::kinds::is_skipped;
use crate::pointee::Pointee;
use crate::words::after_skips;
use cx_ctree::{CType, Unit};
use cx_cword::{LexemeKind, Punctuator};
use cx_reader::{Read, Stop, split};
use cx_tword::TypeLexeme;
use std::alloc::{AllocError, Global};

fn pointed(alloc: Global, x: Pointee) -> Result<Pointee, AllocError>
    ensures { IfOk result (λ y. pointee_tree y ≡ grammar.pointed (pointee_tree x)) }
{
    Ok(Pointee {
        ctype: CType::Ptr(Box::new(alloc, x.ctype)?),
        unknown_tag: x.unknown_tag,
    })
}

// A pointer to it has at most 400 nodes.
#[tactic(auto, using(std::proofs::lemmas::Bool::Decides::nat_tests))]
fn has_room(ctype: &CType) -> bool
    ensures { result ≡ grammar.is_low (pointer (type_tree ctype.now)) }
{
    !ctype.exceeds(399)
}

fn is_star(kind: LexemeKind) -> bool
    ensures { result ≡ grammar.is_star kind }
{
    match kind {
        LexemeKind::Punctuator(Punctuator::Star) => true,
        _ => false,
    }
}

// Goes on with stars and words that are passed over.
#[tactic(auto, using(crate::proofs::Turns::tail_none, crate::proofs::Turns::tail_skips, crate::proofs::Turns::tail_stars, crate::proofs::Turns::tail_full, crate::proofs::Turns::tail_stops))]
fn tail<'a>(
    alloc: Global,
    x: Pointee,
    lexemes: &'a [TypeLexeme],
) -> Result<Read<'a, TypeLexeme, Pointee>, Stop>
    ensures { Gives pointee_tree result (read (tail_at (pointee_tree x) lexemes.now)) }
{
    let mut tree = x;
    let mut rest = lexemes;
    while let Some((o, after)) = split(rest) {
        if is_star(o.c_kind) {
            if !has_room(&tree.ctype) {
                return Ok(Read { tree, rest });
            }
            tree = pointed(alloc, tree)?;
            rest = after;
        } else if is_skipped(o.c_kind) {
            rest = after;
        } else {
            return Ok(Read { tree, rest });
        }
    }
    Ok(Read { tree, rest })
}

#[tactic(auto, unfolding(crate::specs::Reading::ctype_at))]
fn read_ctype<'a>(
    alloc: Global,
    unit: &Unit,
    lexemes: &'a [TypeLexeme],
) -> Result<Read<'a, TypeLexeme, Pointee>, Stop>
    ensures { Gives pointee_tree result (ctype_at (known_of unit.now) lexemes.now) }
{
    let x = base(unit, after_skips(lexemes))?;
    tail(alloc, x.tree, x.rest)
}

/// Reads a type of C among what the unit declares. Behind it stands no word of an integer type, no word
/// that is passed over and no star.
#[tactic(auto, using(crate::proofs::Laws::ctype_reads))]
pub fn ctype<'a>(
    alloc: Global,
    unit: &Unit,
    lexemes: &'a [TypeLexeme],
) -> Result<Read<'a, TypeLexeme, Pointee>, Stop>
    ensures value { Gives pointee_tree result (ctype_at (known_of unit.now) lexemes.now) }
    ensures reads { ReadsFront (IsCType (known_of unit.now)) EndsCType pointee_tree lexemes.now result }
{
    read_ctype(alloc, unit, lexemes)
}
