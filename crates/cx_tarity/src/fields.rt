ghost use Rattle.std.specs.Prelude.{◌≡◌, drop};
ghost use Rattle.cx_tsyn.specs.Words.{word_tree};
ghost use Rattle.cx_tsyn.specs.Types.{field_trees};
ghost use Rattle.cx_tarity.specs.Known.{known_of, names_of};
ghost use Rattle.cx_tarity.specs.Arity as spec;

use crate::known::{Known, number_in};
use cx_ctree::Member;
use cx_tsyn::{SField, Word};

// Whether the field has the name of the first of these members.
fn is_next(known: &Known, members: &[Member], field: &Word) -> bool
    ensures { result ≡ spec.is_next (known_of known.now) (names_of members.now) (word_tree field.now) }
{
    match members {
        [] => false,
        [member, ..] => match number_in(known, field) {
            None => false,
            Some(n) => member.name == n,
        },
    }
}

/// All of the members but the first.
pub fn behind(members: &[Member]) -> &[Member]
    ensures { names_of result.now ≡ drop 1 (names_of members.now) }
{
    match members {
        [] => members,
        [_, after @ ..] => after,
    }
}

fn is_some_left(members: &[Member]) -> bool
    ensures { result ≡ spec.is_some_left (names_of members.now) }
{
    match members {
        [] => false,
        [_, ..] => true,
    }
}

fn is_empty(fields: &[SField]) -> bool
    ensures { result ≡ spec.is_empty (field_trees fields.now) }
{
    match fields {
        [] => true,
        [_, ..] => false,
    }
}

fn are_missing(known: &Known, members: &[Member], fields: &[SField]) -> bool
    ensures { result ≡ spec.are_missing (known_of known.now) (names_of members.now) (field_trees fields.now) }
{
    let mut left = members;
    for field in fields {
        if !is_next(known, left, &field.name) {
            return false;
        }
        left = behind(left);
    }
    is_some_left(left)
}

/// Whether the fields are too few: of a union, where it is true, none; of a struct not all.
pub fn are_few(known: &Known, union_: bool, members: &[Member], fields: &[SField]) -> bool
    ensures { result ≡ spec.are_few (known_of known.now) union_ (names_of members.now) (field_trees fields.now) }
{
    if union_ {
        return is_empty(fields);
    }
    are_missing(known, members, fields)
}

/// Whether a field may stand behind those before it, where these members are left.
pub fn may_stand(known: &Known, union_: bool, first: bool, members: &[Member], field: &Word) -> bool
    ensures { result ≡ spec.may_stand (known_of known.now) union_ first (names_of members.now) (word_tree field.now) }
{
    if union_ {
        return first;
    }
    is_next(known, members, field)
}
