// Types are made here.

ghost use Rattle.std.specs.Prelude.{◌≡◌, IfOk, map, option_map};
ghost use Rattle.cx_tsyn.specs.Words.{word_tree};
ghost use Rattle.cx_tsyn.specs.Lins.{lin_tree, relation_tree};
ghost use Rattle.cx_tsyn.specs.Cells.{cell_tree};
ghost use Rattle.cx_tsyn.specs.Types.{stype, cell, paren, tagged, product, cases, as_tag_tree, stype_tree, atom_tree, field_tree, branch_tree, stype_trees, field_trees, branch_trees};

use cx_base::{List, Span};
use cx_tsyn::{AsTag, Atom, Lin, Relation, SBranch, SCell, SField, SType, Word};
use std::alloc::{AllocError, Global};

pub fn type_of(
    span: Span,
    binders: List<Word>,
    atom: Atom,
    times: Option<Lin>,
    conds: List<Relation>,
) -> SType
    ensures { stype_tree result ≡ stype span (map word_tree binders) (atom_tree atom) (option_map lin_tree times) (map relation_tree conds) }
{
    SType {
        span,
        binders,
        atom,
        times,
        conds,
    }
}

pub fn cell_of(x: SCell) -> Atom
    ensures { atom_tree result ≡ cell (cell_tree x) }
{
    Atom::Cell(x)
}

pub fn paren_of(alloc: Global, body: SType) -> Result<Atom, AllocError>
    ensures { IfOk result (λ a. atom_tree a ≡ paren (stype_tree body)) }
{
    Ok(Atom::Paren(Box::new(alloc, body)?))
}

pub fn tagged_of(union_: bool, tag: Word, fields: List<SField>) -> Atom
    ensures { atom_tree result ≡ tagged union_ (word_tree tag) (field_trees fields) }
{
    Atom::Tagged {
        union_,
        tag,
        fields,
    }
}

pub fn product_of(parts: List<SType>, as_tag: Option<AsTag>) -> Atom
    ensures { atom_tree result ≡ product (stype_trees parts) (option_map as_tag_tree as_tag) }
{
    Atom::Product { parts, as_tag }
}

pub fn cases_of(branches: List<SBranch>) -> Atom
    ensures { atom_tree result ≡ cases (branch_trees branches) }
{
    Atom::Cases(branches)
}

pub fn field_of(name: Word, body: SType) -> SField
    ensures { field_tree result ≡ record { name = word_tree name; body = stype_tree body } }
{
    SField { name, body }
}

pub fn branch_of(guard: List<Relation>, body: SType) -> SBranch
    ensures { branch_tree result ≡ record { guard = map relation_tree guard; body = stype_tree body } }
{
    SBranch { guard, body }
}
