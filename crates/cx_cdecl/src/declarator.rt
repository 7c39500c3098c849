// Declarators of objects (C11 6.7.6).

ghost use Rattle.std.specs.Prelude.{◌≡◌, ◌≤◌, ◌<◌, ◌+◌, ◌-◌, [], Ok, Some, IfOk, IfSome, IfNone};
ghost use Rattle.cx_ctree.specs.Types.{type_tree, array};
ghost use Rattle.cx_ctree.specs.Path.{type_path};
ghost use Rattle.cx_cword.specs.Reading.{Gives};
ghost use Rattle.cx_cname.specs.Known.{known_of};
ghost use Rattle.cx_cdecl.specs.Reading.{Numbered, got_pointers, got_size, got_sizes, got_named, pointers_at, size_at, sizes_at, sized_at, name_at, object_at};
ghost use Rattle.cx_cdecl.specs.Reading as spec;

use cx_base::List;
use cx_cconst::constant_value;
use cx_cexpr::{cond, named, pointer_to, skipped};
use cx_cname::is_complete;
use cx_ctree::{CType, Unit};
use cx_cword::{Lexeme, Mark, Stop, next};
use std::alloc::{AllocError, Global};

/// A type with its stars, how many nodes its longest path has, and the lexemes after it.
#[derive(Drop)]
pub struct ReadPointers<'a> {
    pub ctype: CType,
    pub height: u32,
    pub rest: &'a [Lexeme],
}

/// The size of an array, and the lexemes after it.
#[derive(Drop)]
pub struct ReadSize<'a> {
    pub size: u32,
    pub rest: &'a [Lexeme],
}

/// The sizes of arrays, from the outermost, and the lexemes after them.
#[derive(Drop)]
pub struct ReadSizes<'a> {
    pub sizes: List<u32>,
    pub rest: &'a [Lexeme],
}

/// A declared name with its lexeme and its type, how many nodes the longest path of the type has,
/// and the lexemes after it.
#[derive(Drop)]
pub struct ReadNamed<'a> {
    pub name: u32,
    pub lexeme: Lexeme,
    pub ctype: CType,
    pub height: u32,
    pub rest: &'a [Lexeme],
}

/// The type with the stars that stand there, of at most 400 nodes on a path.
#[tactic(auto, using(std::proofs::lemmas::Bool::Decides::nat_tests, crate::proofs::Turns::pointers_turn, crate::proofs::Turns::pointers_none, crate::proofs::Turns::chosen_not))]
pub fn pointers<'a>(
    alloc: Global,
    turns: usize,
    base: CType,
    high: u32,
    lexemes: &'a [Lexeme],
) -> Result<ReadPointers<'a>, Stop>
    requires { high ≡ type_path (type_tree base) }
    ensures value { Gives got_pointers result (pointers_at turns 400 (type_tree base) lexemes.now) }
    ensures measured { IfOk result (λ r. r.height ≡ type_path (type_tree r.ctype)) }
    ensures low { IfOk result (λ r. r.height ≤ 400) }
{
    let mut n = turns;
    let mut ctype = base;
    let mut height = high;
    let mut rest = lexemes;
    'each: while n > 0 {
        n -= 1;
        if height > 400 {
            return Err(Stop::Unread);
        }
        match next(Mark::Star, rest) {
            None => {
                return Ok(ReadPointers {
                    ctype,
                    height,
                    rest,
                });
            }
            Some((_, after)) => {
                ctype = pointer_to(alloc, ctype)?;
                height += 1;
                rest = skipped(0, after).rest;
            }
        }
    }
    Err(Stop::Unread)
}

/// A number of elements, from 1 to 2^31 (C11 6.7.6.2).
fn in_size(v: i128) -> Option<u32>
    ensures { Numbered v result }
{
    if 1 <= v && v <= 2147483648 {
        Some(v as u32)
    } else {
        None
    }
}

/// A size in brackets.
#[tactic(auto, unfolding(crate::specs::Reading::size_at))]
pub fn size<'a>(
    alloc: Global,
    known: &Unit,
    turns: usize,
    lexemes: &'a [Lexeme],
) -> Result<ReadSize<'a>, Stop>
    ensures { Gives got_size result (size_at turns (known_of known.now) lexemes.now) }
{
    match next(Mark::OpenBracket, lexemes) {
        None => Err(Stop::Unread),
        Some((_, rest)) => {
            let x = cond(alloc, known, turns, 400, rest)?;
            match next(Mark::CloseBracket, x.rest) {
                None => Err(Stop::Unread),
                Some((_, after)) => match constant_value(known, &x.tree) {
                    None => Err(Stop::Unread),
                    Some(v) => match in_size(v) {
                        None => Err(Stop::Unread),
                        Some(size) => Ok(ReadSize { size, rest: after }),
                    },
                },
            }
        }
    }
}

/// Goes on with sizes, at most `limit` of them.
#[tactic(auto, using(crate::proofs::Turns::sizes_turn, crate::proofs::Turns::sizes_none))]
pub fn sizes<'a>(
    alloc: Global,
    known: &Unit,
    turns: usize,
    limit: u32,
    lexemes: &'a [Lexeme],
) -> Result<ReadSizes<'a>, Stop>
    ensures { Gives got_sizes result (Some (sizes_at turns (known_of known.now) limit [] lexemes.now)) }
{
    let mut left = limit;
    let mut sizes = List::new(alloc);
    let mut rest = lexemes;
    'each: while left > 0 {
        left -= 1;
        match size(alloc, known, turns, rest) {
            Err(Stop::NoMemory) => return Err(Stop::NoMemory),
            Err(Stop::Unread) => return Ok(ReadSizes { sizes, rest }),
            Ok(x) => {
                sizes.push(x.size)?;
                rest = x.rest;
            }
        }
    }
    Ok(ReadSizes { sizes, rest })
}

/// The sizes of arrays of this type, of at most `left` nodes on a path.
pub fn sized<'a>(
    alloc: Global,
    known: &Unit,
    turns: usize,
    left: u32,
    ctype: &CType,
    height: u32,
    lexemes: &'a [Lexeme],
) -> Result<ReadSizes<'a>, Stop>
    requires { height ≡ type_path (type_tree ctype.now) }
    ensures { Gives got_sizes result (Some (sized_at turns (known_of known.now) left (type_tree ctype.now) lexemes.now)) }
{
    if is_complete(known, ctype) {
        sizes(alloc, known, turns, left.saturating_sub(height), lexemes)
    } else {
        Ok(ReadSizes {
            sizes: List::new(alloc),
            rest: lexemes,
        })
    }
}

fn array_of(alloc: Global, element: CType, count: u32) -> Result<CType, AllocError>
    ensures { IfOk result (λ t. type_tree t ≡ array (type_tree element) count) }
{
    Ok(CType::Array(Box::new(alloc, element)?, count))
}

/// Arrays of these sizes, of which the first is the outermost.
#[tactic(auto, using(crate::proofs::Arrays::arrays_next))]
pub fn arrays(alloc: Global, element: CType, sizes: &[u32]) -> Result<CType, AllocError>
    ensures { IfOk result (λ t. type_tree t ≡ spec.arrays (type_tree element) sizes.now) }
{
    let mut n = sizes.len();
    let mut ctype = element;
    'each: while n > 0 {
        n -= 1;
        ctype = array_of(alloc, ctype, sizes[n])?;
    }
    Ok(ctype)
}

/// The stars and the name of a declarator.
#[tactic(auto, unfolding(crate::specs::Reading::name_at))]
pub fn name<'a>(
    alloc: Global,
    turns: usize,
    base: &CType,
    high: u32,
    lexemes: &'a [Lexeme],
) -> Result<ReadNamed<'a>, Stop>
    requires { high ≡ type_path (type_tree base.now) }
    ensures value { Gives got_named result (name_at turns (type_tree base.now) lexemes.now) }
    ensures measured { IfOk result (λ r. r.height ≡ type_path (type_tree r.ctype)) }
    ensures low { IfOk result (λ r. r.height ≤ 400) }
{
    let x = pointers(alloc, turns, base.copy()?, high, lexemes)?;
    match named(x.rest) {
        None => Err(Stop::Unread),
        Some((o, n, rest)) => Ok(ReadNamed {
            name: n,
            lexeme: o,
            ctype: x.ctype,
            height: x.height,
            rest,
        }),
    }
}

/// Goes on after the name of an object. The height is that of the element.
#[tactic(auto, unfolding(crate::specs::Reading::sizes_after))]
pub fn sizes_after<'a>(
    alloc: Global,
    known: &Unit,
    turns: usize,
    x: ReadNamed<'a>,
) -> Result<ReadNamed<'a>, Stop>
    requires { x.height ≡ type_path (type_tree x.ctype) }
    ensures { Gives got_named result (Some (spec.sizes_after turns (known_of known.now) (got_named x.entry))) }
{
    let s = sized(alloc, known, turns, 400, &x.ctype, x.height, x.rest)?;
    Ok(ReadNamed {
        ctype: arrays(alloc, x.ctype, s.sizes.as_slice())?,
        rest: s.rest,
        name: x.name,
        lexeme: x.lexeme,
        height: x.height,
    })
}

/// A declarator of an object.
#[tactic(auto, unfolding(crate::specs::Reading::object_at))]
pub fn object<'a>(
    alloc: Global,
    known: &Unit,
    turns: usize,
    base: &CType,
    high: u32,
    lexemes: &'a [Lexeme],
) -> Result<ReadNamed<'a>, Stop>
    requires { high ≡ type_path (type_tree base.now) }
    ensures { Gives got_named result (object_at turns (known_of known.now) (type_tree base.now) lexemes.now) }
{
    let x = name(alloc, turns, base, high, lexemes)?;
    sizes_after(alloc, known, turns, x)
}
