// Parameters of functions (C11 6.7.6.3).

ghost use Rattle.std.specs.Prelude.{◌≡◌, ◌++◌, ◌∷◌, [], map, Some, IfOk, OnOk};
ghost use Rattle.cx_ctree.specs.Types.{type_tree};
ghost use Rattle.cx_ctree.specs.Path.{type_path};
ghost use Rattle.cx_ctree.specs.Decls.{param_tree};
ghost use Rattle.cx_cword.specs.Reading.{Gives};
ghost use Rattle.cx_cname.specs.Known.{known_of};
ghost use Rattle.cx_cname.specs.Changes.{past};
ghost use Rattle.cx_cdecl.specs.Declarations as grammar;
ghost use Rattle.cx_cdecl.specs.Reading.{got_sized, got_used, got_params, params_tree, list_after, taken, param_size_at, param_named, param_at, params_at, param_list_at, no_params, also_param};
ghost use Rattle.cx_cdecl.specs.Reading as spec;

use crate::declarator::{ReadPointers, arrays, pointers, sized, sizes};
use crate::kinds::{is_tag_word, is_void, name_of};
use crate::specifier::plain_specs;
use cx_base::{List, NoMemory};
use cx_cexpr::pointer_to;
use cx_cname::{Change, is_complete, names_type};
use cx_ctree::{CType, Param, Unit};
use cx_cword::{Lexeme, Mark, Stop, fits, next, split};
use std::alloc::{AllocError, Global};

/// The type of a parameter, the names that its sizes use, and the lexemes after it.
#[derive(Drop)]
pub struct ReadSized<'a> {
    pub ctype: CType,
    pub used: List<u32>,
    pub rest: &'a [Lexeme],
}

/// A parameter, the names that its sizes use, and the lexemes after it.
#[derive(Drop)]
pub struct ReadUsed<'a> {
    pub param: Param,
    pub used: List<u32>,
    pub rest: &'a [Lexeme],
}

/// Parameters, the names that their sizes use, and the lexemes after them.
#[derive(Drop)]
pub struct ReadParams<'a> {
    pub params: List<Param>,
    pub used: List<u32>,
    pub rest: &'a [Lexeme],
}

/// Parameters, and the lexemes after them.
#[derive(Drop)]
pub struct ReadParamList<'a> {
    pub params: List<Param>,
    pub rest: &'a [Lexeme],
}

/// The names in a list of lexemes, but for those of structs, unions and enumerations.
fn names_used(alloc: Global, lexemes: &[Lexeme]) -> Result<List<u32>, NoMemory>
    ensures { IfOk result (λ ns. ns ≡ grammar.names_used lexemes.now) }
{
    let mut names = List::new(alloc);
    let mut tagged = false;
    let mut rest = lexemes;
    'each: while let Some((o, after)) = split(rest) {
        match name_of(o.kind) {
            None => {}
            Some(n) => {
                if !tagged {
                    names.push(n)?;
                }
            }
        }
        tagged = is_tag_word(o.kind);
        rest = after;
    }
    Ok(names)
}

/// The lexemes before the rest.
fn taken_from<'a>(lexemes: &'a [Lexeme], rest: &[Lexeme]) -> &'a [Lexeme]
    ensures { result.now ≡ taken lexemes.now rest.now }
{
    &lexemes[..lexemes.len().saturating_sub(rest.len())]
}

/// A parameter of array type is a pointer to the element.
fn adjusted(ctype: CType) -> CType
    ensures { type_tree result ≡ grammar.adjusted (type_tree ctype) }
{
    match ctype {
        CType::Void => CType::Void,
        CType::Int(t) => CType::Int(t),
        CType::Ptr(pointee) => CType::Ptr(pointee),
        CType::Array(element, _) => CType::Ptr(element),
        CType::Tag(at) => CType::Tag(at),
    }
}

/// The type of a parameter with these sizes.
fn element_of(alloc: Global, element: CType, sizes: &[u32]) -> Result<CType, AllocError>
    ensures { IfOk result (λ t. type_tree t ≡ spec.element_of (type_tree element) sizes.now) }
{
    match sizes {
        [] => Ok(adjusted(element)),
        [_, inner @ ..] => {
            let array = arrays(alloc, element, inner)?;
            pointer_to(alloc, array)
        }
    }
}

/// The sizes after the name of a parameter, of which each has a number.
fn param_sized<'a>(
    alloc: Global,
    known: &Unit,
    turns: usize,
    x: CType,
    height: u32,
    lexemes: &'a [Lexeme],
) -> Result<ReadSized<'a>, Stop>
    requires { height ≡ type_path (type_tree x) }
    ensures { Gives got_sized result (Some (spec.param_sized turns (known_of known.now) (type_tree x) lexemes.now)) }
{
    let s = sized(alloc, known, turns, 400, &x, height, lexemes)?;
    Ok(ReadSized {
        ctype: element_of(alloc, x, s.sizes.as_slice())?,
        used: names_used(alloc, taken_from(lexemes, s.rest))?,
        rest: s.rest,
    })
}

/// The sizes after the name of a parameter, of which the first has no number and is read.
fn param_open<'a>(
    alloc: Global,
    known: &Unit,
    turns: usize,
    x: CType,
    height: u32,
    lexemes: &'a [Lexeme],
) -> Result<ReadSized<'a>, Stop>
    requires { height ≡ type_path (type_tree x) }
    ensures { Gives got_sized result (spec.param_open turns (known_of known.now) (type_tree x) lexemes.now) }
{
    if !is_complete(known, &x) || height > 399 {
        return Err(Stop::Unread);
    }
    let s = sizes(alloc, known, turns, 399 - height, lexemes)?;
    let array = arrays(alloc, x, s.sizes.as_slice())?;
    Ok(ReadSized {
        ctype: pointer_to(alloc, array)?,
        used: names_used(alloc, taken_from(lexemes, s.rest))?,
        rest: s.rest,
    })
}

/// What stands after the name of a parameter.
#[tactic(auto, using(crate::proofs::Turns::chosen_not), unfolding(crate::specs::Reading::param_size_at))]
fn param_size<'a>(
    alloc: Global,
    known: &Unit,
    turns: usize,
    x: CType,
    height: u32,
    lexemes: &'a [Lexeme],
) -> Result<ReadSized<'a>, Stop>
    requires { height ≡ type_path (type_tree x) }
    ensures { Gives got_sized result (param_size_at turns (known_of known.now) (type_tree x) lexemes.now) }
{
    match next(Mark::OpenBracket, lexemes) {
        None => param_sized(alloc, known, turns, x, height, lexemes),
        Some((_, rest)) => match next(Mark::CloseBracket, rest) {
            None => param_sized(alloc, known, turns, x, height, lexemes),
            Some((_, after)) => param_open(alloc, known, turns, x, height, after),
        },
    }
}

/// A parameter without a name, after its stars.
fn unnamed<'a>(
    alloc: Global,
    known: &Unit,
    turns: usize,
    x: ReadPointers<'a>,
) -> Result<ReadUsed<'a>, Stop>
    requires { x.height ≡ type_path (type_tree x.ctype) }
    ensures { Gives (λ r. got_used r (known_of known.now)) result (spec.unnamed turns (known_of known.now) (spec.got_pointers x.entry)) }
{
    let s = param_size(alloc, known, turns, x.ctype, x.height, x.rest)?;
    Ok(ReadUsed {
        param: Param {
            name: None,
            ctype: s.ctype,
        },
        used: s.used,
        rest: s.rest,
    })
}

/// A parameter, after its stars.
fn named_after<'a>(
    alloc: Global,
    known: &Unit,
    turns: usize,
    x: ReadPointers<'a>,
) -> Result<ReadUsed<'a>, Stop>
    requires { x.height ≡ type_path (type_tree x.ctype) }
    ensures { Gives (λ r. got_used r (known_of known.now)) result (param_named turns (known_of known.now) (spec.got_pointers x.entry)) }
{
    match split(x.rest) {
        None => unnamed(alloc, known, turns, x),
        Some((o, rest)) => match name_of(o.kind) {
            None => unnamed(alloc, known, turns, x),
            Some(n) => {
                if names_type(known, n) {
                    return Err(Stop::Unread);
                }
                let s = param_size(alloc, known, turns, x.ctype, x.height, rest)?;
                Ok(ReadUsed {
                    param: Param {
                        name: Some(n),
                        ctype: s.ctype,
                    },
                    used: s.used,
                    rest: s.rest,
                })
            }
        },
    }
}

/// A parameter.
#[tactic(auto, unfolding(crate::specs::Reading::param_at))]
fn param<'a>(
    alloc: Global,
    known: &mut Unit,
    changes: &mut List<Change>,
    turns: usize,
    lexemes: &'a [Lexeme],
) -> Result<ReadUsed<'a>, Stop>
    ensures value { Gives (λ r. got_used r (known_of known.new)) result (param_at turns (known_of known.old) lexemes.now) }
    ensures kept { past changes.new known.new ≡ past changes.old known.old }
    ensures items { known.new.items ≡ known.old.items }
{
    let s = plain_specs(known, changes, turns, lexemes)?;
    if s.said.attributed {
        return Err(Stop::Unread);
    }
    let x = pointers(alloc, turns, s.ctype, s.height, s.rest)?;
    named_after(alloc, known, turns, x)
}

#[tactic(auto, using(crate::proofs::Params::param_also))]
fn add_param(params: &mut List<Param>, param: Param) -> Result<(), NoMemory>
    ensures { OnOk result (map param_tree params.new ≡ map param_tree params.old ++ param_tree param ∷ []) }
{
    params.push(param)?;
    Ok(())
}

/// Adds the names to those before them.
#[tactic(auto, using(crate::proofs::Params::more_names))]
fn add_names(names: &mut List<u32>, more: &[u32]) -> Result<(), NoMemory>
    ensures { OnOk result (names.new ≡ names.old ++ more.now) }
{
    let mut rest = more;
    while let [n, after @ ..] = rest {
        names.push(*n)?;
        rest = after;
    }
    Ok(())
}

/// Parameters.
#[tactic(auto, using(crate::proofs::Turns::params_turn, crate::proofs::Turns::params_none, crate::proofs::Turns::chosen_not))]
fn params<'a>(
    alloc: Global,
    known: &mut Unit,
    changes: &mut List<Change>,
    turns: usize,
    lexemes: &'a [Lexeme],
) -> Result<ReadParams<'a>, Stop>
    ensures value { Gives (λ r. got_params r (known_of known.new)) result (params_at turns turns (known_of known.old) no_params lexemes.now) }
    ensures kept { past changes.new known.new ≡ past changes.old known.old }
    ensures items { known.new.items ≡ known.old.items }
{
    let mut n = turns;
    let mut params = List::new(alloc);
    let mut used = List::new(alloc);
    let mut rest = lexemes;
    'each: while n > 0 {
        n -= 1;
        let q = param(alloc, known, changes, turns, rest)?;
        add_param(&mut params, q.param)?;
        add_names(&mut used, q.used.as_slice())?;
        match next(Mark::Comma, q.rest) {
            None => {
                return Ok(ReadParams {
                    params,
                    used,
                    rest: q.rest,
                });
            }
            Some((_, after)) => rest = after,
        }
    }
    Err(Stop::Unread)
}

fn names_param(n: u32, params: &[Param]) -> bool
    ensures { result ≡ spec.names_param n (map param_tree params.now) }
{
    let mut rest = params;
    while let [param, after @ ..] = rest {
        if param.name == Some(n) {
            return true;
        }
        rest = after;
    }
    false
}

/// Whether none of the names is a parameter's.
fn are_outside(params: &[Param], names: &[u32]) -> bool
    ensures { result ≡ grammar.are_outside (map param_tree params.now) names.now }
{
    let mut rest = names;
    while let [n, after @ ..] = rest {
        if names_param(*n, params) {
            return false;
        }
        rest = after;
    }
    true
}

fn closes_params(lexemes: &[Lexeme]) -> bool
    ensures { result ≡ spec.closes_params lexemes.now }
{
    match split(lexemes) {
        None => false,
        Some((o, _)) => fits(Mark::CloseParen, o.kind),
    }
}

fn some_params<'a>(
    alloc: Global,
    known: &mut Unit,
    changes: &mut List<Change>,
    turns: usize,
    lexemes: &'a [Lexeme],
) -> Result<ReadParamList<'a>, Stop>
    ensures value { Gives (λ r. list_after r (known_of known.new)) result (spec.some_params turns (known_of known.old) lexemes.now) }
    ensures kept { past changes.new known.new ≡ past changes.old known.old }
    ensures items { known.new.items ≡ known.old.items }
{
    let x = params(alloc, known, changes, turns, lexemes)?;
    if !are_outside(x.params.as_slice(), x.used.as_slice()) {
        return Err(Stop::Unread);
    }
    Ok(ReadParamList {
        params: x.params,
        rest: x.rest,
    })
}

/// What stands between the parentheses of a function, up to the one that closes.
#[tactic(auto, unfolding(crate::specs::Reading::param_list_at))]
pub fn param_list<'a>(
    alloc: Global,
    known: &mut Unit,
    changes: &mut List<Change>,
    turns: usize,
    lexemes: &'a [Lexeme],
) -> Result<ReadParamList<'a>, Stop>
    ensures value { Gives (λ r. list_after r (known_of known.new)) result (param_list_at turns (known_of known.old) lexemes.now) }
    ensures kept { past changes.new known.new ≡ past changes.old known.old }
    ensures items { known.new.items ≡ known.old.items }
{
    match split(lexemes) {
        None => Err(Stop::Unread),
        Some((o, rest)) => {
            if fits(Mark::CloseParen, o.kind) {
                return Ok(ReadParamList {
                    params: List::new(alloc),
                    rest: lexemes,
                });
            }
            if is_void(o.kind) && closes_params(rest) {
                return Ok(ReadParamList {
                    params: List::new(alloc),
                    rest,
                });
            }
            some_params(alloc, known, changes, turns, lexemes)
        }
    }
}
