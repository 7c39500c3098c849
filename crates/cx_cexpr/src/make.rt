// What was read, with its height. Trees of expressions are made here.

ghost use Rattle.std.specs.Prelude.{◌≡◌, ◌≤◌, ◌+◌, ◌<◌, ◌-◌, IfOk, Ok, Some, max};
ghost use Rattle.cx_ctree.specs.Types.{TypeTree, pointer, type_tree};
ghost use Rattle.cx_ctree.specs.Exprs.{ExprTree, expr_tree};
ghost use Rattle.cx_ctree.specs.Exprs as e;
ghost use Rattle.cx_ctree.specs.Path.{type_path, expr_path};
ghost use Rattle.cx_cword.specs.Reading.{Gives};
ghost use Rattle.cx_cexpr.specs.Kinds.{with_prefix, with_member};
ghost use Rattle.cx_cexpr.specs.Reading.{got, got_type, low_type, made, Measured, MeasuredType, spelled, size_of_type, size_of_value, cast_to, joined_at, chosen_at, prefixed_at, indexed_at, member_at};
ghost use Rattle.cx_cexpr.specs.Reading as spec;

use crate::kinds::{Prefix, named};
use cx_base::{CInt, Span};
use cx_ctree::{Binary, CType, Expr, ExprKind};
use cx_cword::{Lexeme, Mark, Stop, next, span_between};
use std::alloc::{AllocError, Global};

/// An expression that was read: its tree, how many nodes its longest path has, the place past its
/// last lexeme, and the lexemes after it.
#[derive(Debug, Drop)]
pub struct Read<'a> {
    pub tree: Expr,
    pub height: u32,
    pub past: u32,
    pub rest: &'a [Lexeme],
}

/// A type that was read: its tree, how many nodes its longest path has, the place past its last
/// lexeme, and the lexemes after it.
#[derive(Drop)]
pub struct ReadType<'a> {
    pub tree: CType,
    pub height: u32,
    pub past: u32,
    pub rest: &'a [Lexeme],
}

/// The type, where it is not too high.
#[tactic(auto, using(std::proofs::lemmas::Bool::Decides::nat_tests), unfolding(crate::specs::Reading::low_type))]
pub fn low_type<'a>(left: u32, x: ReadType<'a>) -> Result<ReadType<'a>, Stop>
    requires { x.height ≡ type_path (type_tree x.tree) }
    ensures value { Gives got_type result (low_type left (got_type x.entry)) }
    ensures measured { MeasuredType left result }
{
    if x.height <= left {
        Ok(x)
    } else {
        Err(Stop::Unread)
    }
}

/// The expression, where it is not too high.
#[tactic(auto, using(std::proofs::lemmas::Bool::Decides::nat_tests), unfolding(crate::specs::Reading::made))]
pub fn made<'a>(
    left: u32,
    tree: Expr,
    height: u32,
    past: u32,
    rest: &'a [Lexeme],
) -> Result<Read<'a>, Stop>
    requires { height ≡ expr_path (expr_tree tree) }
    ensures value { Gives got result (made left (expr_tree tree) past rest.now) }
    ensures measured { Measured left result }
{
    if height <= left {
        Ok(Read {
            tree,
            height,
            past,
            rest,
        })
    } else {
        Err(Stop::Unread)
    }
}

fn higher(a: u32, b: u32) -> u32
    ensures { result ≡ max a b }
{
    if a < b { b } else { a }
}

pub fn number(first: u32, past: u32, v: i128, t: CInt) -> Expr
    ensures { expr_tree result ≡ spelled first past (e.num v t) }
{
    Expr {
        span: span_between(first, past),
        ctype: CType::Void,
        kind: ExprKind::Num(v, t),
    }
}

pub fn name(first: u32, past: u32, n: u32) -> Expr
    ensures { expr_tree result ≡ spelled first past (e.name n) }
{
    Expr {
        span: span_between(first, past),
        ctype: CType::Void,
        kind: ExprKind::Name(n),
    }
}

pub fn pointer_to(alloc: Global, to: CType) -> Result<CType, AllocError>
    ensures { IfOk result (λ t. type_tree t ≡ pointer (type_tree to)) }
{
    Ok(CType::Ptr(Box::new(alloc, to)?))
}

/// The operand with the operator in front of it.
pub fn prefixed<'a>(
    alloc: Global,
    left: u32,
    first: u32,
    prefix: Prefix,
    x: Read<'a>,
) -> Result<Read<'a>, Stop>
    requires shallow { left ≤ 400 }
    requires known { Measured (left - 1) (Ok x) }
    ensures value { Gives got result (prefixed_at left first prefix (got x.entry)) }
    ensures measured { Measured left result }
{
    let height = x.height + 1;
    let tree = prefixed_tree(alloc, first, x.past, prefix, x.tree)?;
    made(left, tree, height, x.past, x.rest)
}

fn prefixed_tree(
    alloc: Global,
    first: u32,
    past: u32,
    prefix: Prefix,
    x: Expr,
) -> Result<Expr, AllocError>
    ensures { IfOk result (λ t. expr_tree t ≡ spelled first past (with_prefix prefix (expr_tree x))) }
{
    let operand = Box::new(alloc, x)?;
    Ok(Expr {
        span: span_between(first, past),
        ctype: CType::Void,
        kind: match prefix {
            Prefix::Number(op) => ExprKind::Unary(op, operand),
            Prefix::Deref => ExprKind::Deref(operand),
            Prefix::Address => ExprKind::Address(operand),
        },
    })
}

/// A binary operator with its operands.
pub fn joined<'a>(
    alloc: Global,
    left: u32,
    first: u32,
    op: Binary,
    x: Read<'a>,
    y: Read<'a>,
) -> Result<Read<'a>, Stop>
    requires shallow { left ≤ 400 }
    requires known { Measured left (Ok x) }
    requires known_too { Measured (left - 1) (Ok y) }
    ensures value { Gives got result (joined_at left first op (got x.entry) (got y.entry)) }
    ensures measured { Measured left result }
{
    let height = higher(x.height, y.height) + 1;
    let tree = joined_tree(alloc, first, y.past, op, x.tree, y.tree)?;
    made(left, tree, height, y.past, y.rest)
}

fn joined_tree(
    alloc: Global,
    first: u32,
    past: u32,
    op: Binary,
    x: Expr,
    y: Expr,
) -> Result<Expr, AllocError>
    ensures { IfOk result (λ t. expr_tree t ≡ spelled first past (e.binary op (expr_tree x) (expr_tree y))) }
{
    let kind = ExprKind::Binary(op, Box::new(alloc, x)?, Box::new(alloc, y)?);
    Ok(Expr {
        span: span_between(first, past),
        ctype: CType::Void,
        kind,
    })
}

/// A conditional expression.
pub fn chosen<'a>(
    alloc: Global,
    left: u32,
    first: u32,
    x: Read<'a>,
    y: Read<'a>,
    z: Read<'a>,
) -> Result<Read<'a>, Stop>
    requires shallow { left ≤ 400 }
    requires known { Measured left (Ok x) }
    requires known_too { Measured (left - 1) (Ok y) }
    requires known_last { Measured (left - 1) (Ok z) }
    ensures value { Gives got result (chosen_at left first (got x.entry) (got y.entry) (got z.entry)) }
    ensures measured { Measured left result }
{
    let height = higher(x.height, higher(y.height, z.height)) + 1;
    let tree = chosen_tree(alloc, first, z.past, x.tree, y.tree, z.tree)?;
    made(left, tree, height, z.past, z.rest)
}

fn chosen_tree(
    alloc: Global,
    first: u32,
    past: u32,
    x: Expr,
    y: Expr,
    z: Expr,
) -> Result<Expr, AllocError>
    ensures { IfOk result (λ t. expr_tree t ≡ spelled first past (e.cond (expr_tree x) (expr_tree y) (expr_tree z))) }
{
    let x = Box::new(alloc, x)?;
    let y = Box::new(alloc, y)?;
    let z = Box::new(alloc, z)?;
    Ok(Expr {
        span: span_between(first, past),
        ctype: CType::Void,
        kind: ExprKind::Cond(x, y, z),
    })
}

/// A cast of an operand to a type.
pub fn cast_to<'a>(
    alloc: Global,
    left: u32,
    first: u32,
    t: ReadType<'a>,
    x: Read<'a>,
) -> Result<Read<'a>, Stop>
    requires shallow { left ≤ 400 }
    requires known { MeasuredType (left - 1) (Ok t) }
    requires known_too { Measured (left - 1) (Ok x) }
    ensures value { Gives got result (cast_to left first (got_type t.entry) (got x.entry)) }
    ensures measured { Measured left result }
{
    let height = higher(t.height, x.height) + 1;
    let tree = cast_tree(alloc, first, x.past, t.tree, x.tree)?;
    made(left, tree, height, x.past, x.rest)
}

fn cast_tree(alloc: Global, first: u32, past: u32, t: CType, x: Expr) -> Result<Expr, AllocError>
    ensures { IfOk result (λ r. expr_tree r ≡ spelled first past (e.cast (type_tree t) (expr_tree x))) }
{
    let operand = Box::new(alloc, x)?;
    Ok(Expr {
        span: span_between(first, past),
        ctype: CType::Void,
        kind: ExprKind::Cast(t, operand),
    })
}

/// The size of a type.
pub fn size_of_type<'a>(left: u32, first: u32, t: ReadType<'a>) -> Result<Read<'a>, Stop>
    requires shallow { left ≤ 400 }
    requires known { MeasuredType (left - 1) (Ok t) }
    ensures value { Gives got result (size_of_type left first (got_type t.entry)) }
    ensures measured { Measured left result }
{
    let height = t.height + 1;
    let tree = Expr {
        span: span_between(first, t.past),
        ctype: CType::Void,
        kind: ExprKind::SizeOf(t.tree),
    };
    made(left, tree, height, t.past, t.rest)
}

/// The size of a value.
pub fn size_of_value<'a>(
    alloc: Global,
    left: u32,
    first: u32,
    x: Read<'a>,
) -> Result<Read<'a>, Stop>
    requires shallow { left ≤ 400 }
    requires known { Measured (left - 1) (Ok x) }
    ensures value { Gives got result (size_of_value left first (got x.entry)) }
    ensures measured { Measured left result }
{
    let height = x.height + 1;
    let tree = size_tree(alloc, first, x.past, x.tree)?;
    made(left, tree, height, x.past, x.rest)
}

fn size_tree(alloc: Global, first: u32, past: u32, x: Expr) -> Result<Expr, AllocError>
    ensures { IfOk result (λ t. expr_tree t ≡ spelled first past (e.size_of_expr (expr_tree x))) }
{
    let operand = Box::new(alloc, x)?;
    Ok(Expr {
        span: span_between(first, past),
        ctype: CType::Void,
        kind: ExprKind::SizeOfExpr(operand),
    })
}

/// An element, from the closing bracket on.
pub fn indexed<'a>(
    alloc: Global,
    left: u32,
    first: u32,
    x: Read<'a>,
    y: Read<'a>,
) -> Result<Read<'a>, Stop>
    requires shallow { left ≤ 400 }
    requires known { Measured left (Ok x) }
    requires known_too { Measured (left - 1) (Ok y) }
    ensures value { Gives got result (indexed_at left first (got x.entry) (got y.entry)) }
    ensures measured { Measured left result }
{
    match next(Mark::CloseBracket, y.rest) {
        None => Err(Stop::Unread),
        Some((c, rest)) => {
            let height = higher(x.height, y.height) + 1;
            let tree = index_tree(alloc, first, c.span.past, x.tree, y.tree)?;
            made(left, tree, height, c.span.past, rest)
        }
    }
}

fn index_tree(alloc: Global, first: u32, past: u32, x: Expr, y: Expr) -> Result<Expr, AllocError>
    ensures { IfOk result (λ t. expr_tree t ≡ spelled first past (e.index (expr_tree x) (expr_tree y))) }
{
    let x = Box::new(alloc, x)?;
    let y = Box::new(alloc, y)?;
    Ok(Expr {
        span: span_between(first, past),
        ctype: CType::Void,
        kind: ExprKind::Index(x, y),
    })
}

/// A member, from its name on; of what `x` points to where `arrow` is true.
pub fn member<'a>(
    alloc: Global,
    left: u32,
    first: u32,
    arrow: bool,
    x: Read<'a>,
    lexemes: &'a [Lexeme],
) -> Result<Read<'a>, Stop>
    requires shallow { left ≤ 400 }
    requires known { Measured left (Ok x) }
    ensures value { Gives got result (member_at left first arrow (got x.entry) lexemes.now) }
    ensures measured { Measured left result }
{
    match named(lexemes) {
        None => Err(Stop::Unread),
        Some((o, n, rest)) => {
            let height = x.height + 1;
            let tree = member_tree(alloc, first, o.span.past, arrow, x.tree, n)?;
            made(left, tree, height, o.span.past, rest)
        }
    }
}

fn member_tree(
    alloc: Global,
    first: u32,
    past: u32,
    arrow: bool,
    x: Expr,
    n: u32,
) -> Result<Expr, AllocError>
    ensures { IfOk result (λ t. expr_tree t ≡ spelled first past (with_member arrow (expr_tree x) n)) }
{
    let operand = Box::new(alloc, x)?;
    Ok(Expr {
        span: span_between(first, past),
        ctype: CType::Void,
        kind: if arrow {
            ExprKind::Arrow(operand, n)
        } else {
            ExprKind::Member(operand, n)
        },
    })
}
