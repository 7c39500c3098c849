// Labels of a `switch` (C11 6.8.1).

ghost use Rattle.std.specs.Prelude.{◌≡◌, ◌≤◌, ◌++◌, ◌∷◌, [], Ok, OnOk, map, option_map, is_some};
ghost use Rattle.cx_cconst.specs.Constants.{constant_in};
ghost use Rattle.cx_ctree.specs.Exprs.{expr_tree};
ghost use Rattle.cx_cword.specs.Reading.{Gives};
ghost use Rattle.cx_cname.specs.Known.{known_of};
ghost use Rattle.cx_cstmt.specs.Reading.{got_label, got_labels, label_at, labels_at, MeasuredLabel, MeasuredLabels};

use crate::kinds::{Label, begins_label, label_of};
use crate::make::{ReadLabel, ReadLabels, higher};
use cx_base::{List, NoMemory};
use cx_cconst::constant_value;
use cx_cexpr::cond;
use cx_ctree::{Expr, Unit};
use cx_cword::{Lexeme, Mark, Stop, next, split};
use std::alloc::Global;

fn is_constant(known: &Unit, x: &Expr) -> bool
    ensures { result ≡ is_some (constant_in (known_of known.now) (expr_tree x.now)) }
{
    match constant_value(known, x) {
        None => false,
        Some(_) => true,
    }
}

/// A label: `case` with a constant (C11 6.6), or `default`.
#[tactic(auto, unfolding(crate::specs::Reading::label_at))]
fn label<'a>(
    alloc: Global,
    known: &Unit,
    turns: usize,
    left: u32,
    lexemes: &'a [Lexeme],
) -> Result<ReadLabel<'a>, Stop>
    requires shallow { left ≤ 400 }
    ensures value { Gives got_label result (label_at (known_of known.now) turns left lexemes.now) }
    ensures measured { MeasuredLabel left result }
{
    match split(lexemes) {
        None => Err(Stop::Unread),
        Some((o, rest)) => match label_of(o.kind) {
            Label::Case => {
                let x = cond(alloc, known, turns, left, rest)?;
                match next(Mark::Colon, x.rest) {
                    None => Err(Stop::Unread),
                    Some((_, after)) => {
                        if !is_constant(known, &x.tree) {
                            return Err(Stop::Unread);
                        }
                        Ok(ReadLabel {
                            label: Some(x.tree),
                            height: x.height,
                            rest: after,
                        })
                    }
                }
            }
            Label::Default => match next(Mark::Colon, rest) {
                None => Err(Stop::Unread),
                Some((_, after)) => Ok(ReadLabel {
                    label: None,
                    height: 0,
                    rest: after,
                }),
            },
            Label::Other => Err(Stop::Unread),
        },
    }
}

#[tactic(auto, using(cx_base::proofs::General::map_push))]
fn add_label(all: &mut List<Option<Expr>>, x: Option<Expr>) -> Result<(), NoMemory>
    ensures { OnOk result (map (option_map expr_tree) all.new ≡ map (option_map expr_tree) all.old ++ option_map expr_tree x ∷ []) }
{
    all.push(x)
}

/// Labels, at least one.
#[tactic(auto, using(crate::proofs::Turns::labels_turn, crate::proofs::Turns::labels_none, crate::proofs::Lists::greatest_push))]
pub fn labels<'a>(
    alloc: Global,
    known: &Unit,
    turns: usize,
    left: u32,
    lexemes: &'a [Lexeme],
) -> Result<ReadLabels<'a>, Stop>
    requires shallow { left ≤ 400 }
    ensures value { Gives got_labels result (labels_at (known_of known.now) turns left [] lexemes.now) }
    ensures measured { MeasuredLabels left result }
{
    let mut labels = List::new(alloc);
    let mut height = 0;
    let mut n = turns;
    let mut rest = lexemes;
    'each: while n > 0 {
        let x = label(alloc, known, n - 1, left, rest)?;
        height = higher(height, x.height);
        add_label(&mut labels, x.label)?;
        rest = x.rest;
        if !begins_label(rest) {
            return Ok(ReadLabels {
                labels,
                height,
                rest,
            });
        }
        n -= 1;
    }
    Err(Stop::Unread)
}
