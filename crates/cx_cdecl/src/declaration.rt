// Declarators of functions, and declarations (C11 6.7).

ghost use Rattle.std.specs.Prelude.{◌≡◌, ◌++◌, ◌∷◌, [], map, Some, OnOk};
ghost use Rattle.std.specs.List.{list_all};
ghost use Rattle.cx_ctree.specs.Types.{type_tree};
ghost use Rattle.cx_ctree.specs.Path.{type_path};
ghost use Rattle.cx_ctree.specs.Decls.{decl_tree};
ghost use Rattle.cx_cword.specs.Reading.{Gives};
ghost use Rattle.cx_cname.specs.Known.{known_of, earlier_of};
ghost use Rattle.cx_cname.specs.Changes.{past};
ghost use Rattle.cx_cdecl.specs.Declarations as grammar;
ghost use Rattle.cx_cdecl.specs.Reading.{earlier_in, got_named, declarator_tree, got_specs, got_declared, decl_after, decls_after, function_after, declarator_at, initialiser_at, declared_by, init_declarator_at, init_declarators_at, some_declarators, declarators_after, declaration_at};
ghost use Rattle.cx_cdecl.specs.Reading as spec;

use crate::attributes::after_params;
use crate::declarator::{ReadNamed, name, sizes_after};
use crate::member::specs;
use crate::param::param_list;
use crate::specifier::ReadSpecs;
use cx_base::{List, NoMemory};
use cx_cconst::is_constant;
use cx_cexpr::cond;
use cx_cname::meaning::{may_be_function, may_be_object, may_be_type};
use cx_cname::{Change, add_typedef};
use cx_ctree::{CType, Decl, Signature, Unit};
use cx_cword::{Lexeme, Mark, Stop, next};
use std::alloc::Global;

/// What a declarator declares: an object, or a function.
#[derive(Drop)]
pub enum DeclaratorKind {
    Object(u32, CType),
    Function(Signature),
}

/// A declarator: what it declares, the lexeme of its name, and the lexemes after it.
#[derive(Drop)]
pub struct ReadDeclarator<'a> {
    pub kind: DeclaratorKind,
    pub lexeme: Lexeme,
    pub rest: &'a [Lexeme],
}

/// What a declarator of a declaration declares, and the lexemes after it.
#[derive(Drop)]
pub struct ReadDecl<'a> {
    pub decl: Decl,
    pub rest: &'a [Lexeme],
}

/// What declarators declare, and the lexemes after them.
#[derive(Drop)]
pub struct ReadDecls<'a> {
    pub decls: List<Decl>,
    pub rest: &'a [Lexeme],
}

/// What is declared, without a body.
pub fn without_body(kind: DeclaratorKind) -> Decl
    ensures { decl_tree result ≡ declarator_tree kind }
{
    match kind {
        DeclaratorKind::Object(name, ctype) => Decl::Object(name, ctype),
        DeclaratorKind::Function(sig) => Decl::Proto(sig),
    }
}

/// Goes on after the parenthesis of a function.
#[tactic(auto, unfolding(crate::specs::Reading::function_after))]
fn function_after<'a>(
    alloc: Global,
    known: &mut Unit,
    changes: &mut List<Change>,
    turns: usize,
    x: ReadNamed<'a>,
    lexemes: &'a [Lexeme],
) -> Result<ReadDeclarator<'a>, Stop>
    ensures value { Gives (λ r. got_declared r (known_of known.new)) result (function_after turns (known_of known.old) (got_named x.entry).tree lexemes.now) }
    ensures kept { past changes.new known.new ≡ past changes.old known.old }
    ensures items { known.new.items ≡ known.old.items }
{
    let q = param_list(alloc, known, changes, turns, lexemes)?;
    match next(Mark::CloseParen, q.rest) {
        None => Err(Stop::Unread),
        Some((_, after)) => Ok(ReadDeclarator {
            kind: DeclaratorKind::Function(Signature {
                name: x.name,
                result: x.ctype,
                params: q.params,
            }),
            lexeme: x.lexeme,
            rest: after_params(turns, after),
        }),
    }
}

/// Goes on after the name of an object.
pub fn object_after<'a>(
    alloc: Global,
    known: &Unit,
    turns: usize,
    x: ReadNamed<'a>,
) -> Result<ReadDeclarator<'a>, Stop>
    requires { x.height ≡ type_path (type_tree x.ctype) }
    ensures { Gives (λ r. got_declared r (known_of known.now)) result (Some (spec.declares_object (known_of known.now) (spec.sizes_after turns (known_of known.now) (got_named x.entry)))) }
{
    let x = sizes_after(alloc, known, turns, x)?;
    Ok(ReadDeclarator {
        kind: DeclaratorKind::Object(x.name, x.ctype),
        lexeme: x.lexeme,
        rest: x.rest,
    })
}

/// A declarator of a function or an object.
#[tactic(auto, using(crate::proofs::Turns::chosen_not), unfolding(crate::specs::Reading::declarator_at))]
pub fn declarator<'a>(
    alloc: Global,
    known: &mut Unit,
    changes: &mut List<Change>,
    turns: usize,
    base: &CType,
    high: u32,
    lexemes: &'a [Lexeme],
) -> Result<ReadDeclarator<'a>, Stop>
    requires { high ≡ type_path (type_tree base.now) }
    ensures value { Gives (λ r. got_declared r (known_of known.new)) result (declarator_at turns (known_of known.old) (type_tree base.now) lexemes.now) }
    ensures kept { past changes.new known.new ≡ past changes.old known.old }
    ensures items { known.new.items ≡ known.old.items }
{
    let x = name(alloc, turns, base, high, lexemes)?;
    match next(Mark::OpenParen, x.rest) {
        None => object_after(alloc, known, turns, x),
        Some((_, rest)) => function_after(alloc, known, changes, turns, x, rest),
    }
}

/// The lexemes after an initialiser, where one stands there.
#[tactic(auto, using(crate::proofs::Turns::chosen_not), unfolding(crate::specs::Reading::initialiser_at))]
fn initialiser<'a>(
    alloc: Global,
    known: &Unit,
    turns: usize,
    lexemes: &'a [Lexeme],
) -> Result<&'a [Lexeme], Stop>
    ensures { Gives (λ r. r.now) result (initialiser_at turns (known_of known.now) lexemes.now) }
{
    match next(Mark::Assign, lexemes) {
        None => Ok(lexemes),
        Some((_, rest)) => {
            let x = cond(alloc, known, turns, 400, rest)?;
            if is_constant(known, &x.tree) {
                Ok(x.rest)
            } else {
                Err(Stop::Unread)
            }
        }
    }
}

fn declared_type<'a>(
    known: &mut Unit,
    changes: &mut List<Change>,
    earlier: &[Decl],
    n: u32,
    ctype: CType,
    rest: &'a [Lexeme],
) -> Result<ReadDecl<'a>, Stop>
    ensures value { Gives (λ r. decl_after r (known_of known.new)) result (spec.declared_type (earlier_in known.old earlier.now) (known_of known.old) rest.now n (type_tree ctype)) }
    ensures kept { past changes.new known.new ≡ past changes.old known.old }
    ensures items { known.new.items ≡ known.old.items }
{
    if !may_be_type(known, earlier, n, &ctype) {
        return Err(Stop::Unread);
    }
    add_typedef(known, changes, n, ctype)?;
    Ok(ReadDecl {
        decl: Decl::Types,
        rest,
    })
}

fn declared_object<'a>(
    alloc: Global,
    known: &Unit,
    earlier: &[Decl],
    turns: usize,
    n: u32,
    ctype: CType,
    rest: &'a [Lexeme],
) -> Result<ReadDecl<'a>, Stop>
    ensures { Gives (λ r. decl_after r (known_of known.now)) result (spec.declared_object turns (earlier_in known.now earlier.now) (known_of known.now) rest.now n (type_tree ctype)) }
{
    if !may_be_object(known, earlier, n, &ctype) {
        return Err(Stop::Unread);
    }
    let after = initialiser(alloc, known, turns, rest)?;
    Ok(ReadDecl {
        decl: Decl::Object(n, ctype),
        rest: after,
    })
}

/// What a declarator declares, as a type where `typedef_` is true.
fn declared<'a>(
    alloc: Global,
    known: &mut Unit,
    changes: &mut List<Change>,
    earlier: &[Decl],
    turns: usize,
    typedef_: bool,
    x: DeclaratorKind,
    rest: &'a [Lexeme],
) -> Result<ReadDecl<'a>, Stop>
    ensures value { Gives (λ r. decl_after r (known_of known.new)) result (declared_by turns (earlier_in known.old earlier.now) typedef_ (known_of known.old) rest.now (declarator_tree x)) }
    ensures kept { past changes.new known.new ≡ past changes.old known.old }
    ensures items { known.new.items ≡ known.old.items }
{
    match x {
        DeclaratorKind::Object(n, ctype) => {
            if typedef_ {
                declared_type(known, changes, earlier, n, ctype, rest)
            } else {
                declared_object(alloc, known, earlier, turns, n, ctype, rest)
            }
        }
        DeclaratorKind::Function(sig) => {
            if typedef_ || !may_be_function(known, earlier, &sig) {
                return Err(Stop::Unread);
            }
            Ok(ReadDecl {
                decl: Decl::Proto(sig),
                rest,
            })
        }
    }
}

/// A declarator of a declaration.
#[tactic(auto, unfolding(crate::specs::Reading::init_declarator_at))]
fn init_declarator<'a>(
    alloc: Global,
    known: &mut Unit,
    changes: &mut List<Change>,
    earlier: &[Decl],
    turns: usize,
    s: &ReadSpecs,
    lexemes: &'a [Lexeme],
) -> Result<ReadDecl<'a>, Stop>
    requires { s.now.height ≡ type_path (type_tree s.now.ctype) }
    ensures value { Gives (λ r. decl_after r (known_of known.new)) result (init_declarator_at turns (earlier_in known.old earlier.now) (known_of known.old) (type_tree s.now.ctype) s.now.said.typedef_ lexemes.now) }
    ensures kept { past changes.new known.new ≡ past changes.old known.old }
    ensures items { known.new.items ≡ known.old.items }
{
    let x = declarator(alloc, known, changes, turns, &s.ctype, s.height, lexemes)?;
    declared(
        alloc,
        known,
        changes,
        earlier,
        turns,
        s.said.typedef_,
        x.kind,
        x.rest,
    )
}

#[tactic(auto, using(crate::proofs::Params::decl_also))]
fn add_decl(decls: &mut List<Decl>, decl: Decl) -> Result<(), NoMemory>
    ensures { OnOk result (map decl_tree decls.new ≡ map decl_tree decls.old ++ decl_tree decl ∷ []) }
{
    decls.push(decl)?;
    Ok(())
}

/// Declarators of a declaration.
#[tactic(auto, using(crate::proofs::Turns::init_declarators_turn, crate::proofs::Turns::init_declarators_none, crate::proofs::Turns::chosen_not))]
fn init_declarators<'a>(
    alloc: Global,
    known: &mut Unit,
    changes: &mut List<Change>,
    turns: usize,
    s: &ReadSpecs<'a>,
) -> Result<ReadDecls<'a>, Stop>
    requires { s.now.height ≡ type_path (type_tree s.now.ctype) }
    ensures value { Gives (λ r. decls_after r (known_of known.new)) result (init_declarators_at turns (earlier_of known.old) (type_tree s.now.ctype) s.now.said.typedef_ turns (known_of known.old) [] s.now.rest.now) }
    ensures kept { past changes.new known.new ≡ past changes.old known.old }
    ensures items { known.new.items ≡ known.old.items }
{
    let mut n = turns;
    let mut decls = List::new(alloc);
    let mut rest = s.rest;
    'each: while n > 0 {
        n -= 1;
        match init_declarator(alloc, known, changes, decls.as_slice(), turns, s, rest) {
            Err(Stop::NoMemory) => return Err(Stop::NoMemory),
            Err(Stop::Unread) => return Err(Stop::Unread),
            Ok(x) => {
                add_decl(&mut decls, x.decl)?;
                match next(Mark::Comma, x.rest) {
                    None => {
                        return Ok(ReadDecls {
                            decls,
                            rest: x.rest,
                        });
                    }
                    Some((_, after)) => rest = after,
                }
            }
        }
    }
    Err(Stop::Unread)
}

fn is_function(decl: &Decl) -> bool
    ensures { result ≡ grammar.is_function (decl_tree decl.now) }
{
    match decl {
        Decl::Proto(_) => true,
        Decl::Types | Decl::Object(_, _) | Decl::Body(_) => false,
    }
}

fn are_functions(decls: &[Decl]) -> bool
    ensures { result ≡ list_all grammar.is_function (map decl_tree decls.now) }
{
    let mut rest = decls;
    while let [decl, after @ ..] = rest {
        if !is_function(decl) {
            return false;
        }
        rest = after;
    }
    true
}

fn some_declarators<'a>(
    alloc: Global,
    known: &mut Unit,
    changes: &mut List<Change>,
    turns: usize,
    s: &ReadSpecs<'a>,
) -> Result<ReadDecls<'a>, Stop>
    requires { s.now.height ≡ type_path (type_tree s.now.ctype) }
    ensures value { Gives (λ r. decls_after r (known_of known.new)) result (some_declarators turns (earlier_of known.old) (got_specs s.now (known_of known.old))) }
    ensures kept { past changes.new known.new ≡ past changes.old known.old }
    ensures items { known.new.items ≡ known.old.items }
{
    let x = init_declarators(alloc, known, changes, turns, s)?;
    match next(Mark::Semicolon, x.rest) {
        None => Err(Stop::Unread),
        Some((_, after)) => {
            if s.said.attributed && !are_functions(x.decls.as_slice()) {
                return Err(Stop::Unread);
            }
            Ok(ReadDecls {
                decls: x.decls,
                rest: after,
            })
        }
    }
}

/// Goes on after the type of a declaration.
#[tactic(auto, using(crate::proofs::Turns::chosen_not), unfolding(crate::specs::Reading::declarators_after))]
fn declarators_after<'a>(
    alloc: Global,
    known: &mut Unit,
    changes: &mut List<Change>,
    turns: usize,
    s: &ReadSpecs<'a>,
) -> Result<ReadDecls<'a>, Stop>
    requires { s.now.height ≡ type_path (type_tree s.now.ctype) }
    ensures value { Gives (λ r. decls_after r (known_of known.new)) result (declarators_after turns (earlier_of known.old) (got_specs s.now (known_of known.old))) }
    ensures kept { past changes.new known.new ≡ past changes.old known.old }
    ensures items { known.new.items ≡ known.old.items }
{
    match next(Mark::Semicolon, s.rest) {
        None => some_declarators(alloc, known, changes, turns, s),
        Some((_, after)) => {
            if s.said.attributed {
                return Err(Stop::Unread);
            }
            let mut decls = List::new(alloc);
            decls.push(Decl::Types)?;
            Ok(ReadDecls { decls, rest: after })
        }
    }
}

/// A declaration.
#[tactic(auto, unfolding(crate::specs::Reading::declaration_at))]
pub fn declaration<'a>(
    alloc: Global,
    known: &mut Unit,
    changes: &mut List<Change>,
    turns: usize,
    lexemes: &'a [Lexeme],
) -> Result<ReadDecls<'a>, Stop>
    ensures value { Gives (λ r. decls_after r (known_of known.new)) result (declaration_at turns (earlier_of known.old) (known_of known.old) lexemes.now) }
    ensures kept { past changes.new known.new ≡ past changes.old known.old }
    ensures items { known.new.items ≡ known.old.items }
{
    let s = specs(alloc, known, changes, turns, turns, lexemes)?;
    declarators_after(alloc, known, changes, turns, &s)
}
