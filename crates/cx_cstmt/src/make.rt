// What was read, with its height. Statements are made here.

ghost use Rattle.std.specs.Prelude.{◌≡◌, ◌≤◌, ◌<◌, ◌+◌, ◌-◌, ◌++◌, ◌∷◌, [], map, max, Ok, IfOk, OnOk, Some, option_map};
ghost use Rattle.cx_ctree.specs.Types.{TypeTree, type_tree};
ghost use Rattle.cx_ctree.specs.Exprs.{ExprTree, expr_tree, rhs_tree, effect_tree};
ghost use Rattle.cx_ctree.specs.Stmts as s;
ghost use Rattle.cx_ctree.specs.Stmts.{StmtTree, stmt, StmtTrees, GroupTrees, stmt_tree, stmt_trees, group_tree, group_trees};
ghost use Rattle.cx_ctree.specs.Path.{type_path, expr_path, rhs_path, effect_path, stmt_path, stmts_path, groups_path};
ghost use Rattle.cx_cword.specs.Reading.{Gives};
ghost use Rattle.cx_cname.specs.Known.{known_of};
ghost use Rattle.cx_cexpr.specs.Reading as expr;
ghost use Rattle.cx_ceffect.specs.Reading.{MeasuredEffect, MeasuredRhs};
ghost use Rattle.cx_cstmt.specs.Reading.{got, got_header, made, ended, for_kind, push, push_group, spelled, Measured, LowStmts, LowGroups, MeasuredLabels, MeasuredHeader, test_path};

use cx_base::{List, NoMemory, Span};
use cx_ceffect::{ReadEffect, ReadRhs};
use cx_cexpr::Read;
use cx_ctree::{CType, Effect, Expr, Group, Rhs, Stmt, StmtKind, Unit};
use cx_cword::{Lexeme, Stop, span_between};
use std::alloc::{AllocError, Global};

/// A statement that was read: its tree, how many nodes its longest path has, the place past its last
/// lexeme, and the lexemes after it.
#[derive(Drop)]
pub struct ReadStmt<'a> {
    pub tree: Stmt,
    pub height: u32,
    pub past: u32,
    pub rest: &'a [Lexeme],
}

/// Statements, and how many nodes their longest path has.
#[derive(Drop)]
pub struct Stmts {
    pub all: List<Stmt>,
    pub height: u32,
}

/// Statements that were read, and the lexemes after them.
#[derive(Drop)]
pub struct ReadStmts<'a> {
    pub stmts: Stmts,
    pub rest: &'a [Lexeme],
}

/// Groups of a `switch`, and how many nodes their longest path has.
#[derive(Drop)]
pub struct Groups {
    pub all: List<Group>,
    pub height: u32,
}

/// Groups of a `switch` that were read, and the lexemes after them.
#[derive(Drop)]
pub struct ReadGroups<'a> {
    pub groups: Groups,
    pub rest: &'a [Lexeme],
}

/// A label that was read, None for `default`: how many nodes its longest path has, and the lexemes
/// after it.
#[derive(Drop)]
pub struct ReadLabel<'a> {
    pub label: Option<Expr>,
    pub height: u32,
    pub rest: &'a [Lexeme],
}

/// Labels that were read: how many nodes their longest path has, and the lexemes after them.
#[derive(Drop)]
pub struct ReadLabels<'a> {
    pub labels: List<Option<Expr>>,
    pub height: u32,
    pub rest: &'a [Lexeme],
}

/// The condition of a `for`, if it has one: how many nodes its longest path has, and the lexemes
/// after its semicolon.
#[derive(Drop)]
pub struct ReadTest<'a> {
    pub test: Option<Expr>,
    pub height: u32,
    pub rest: &'a [Lexeme],
}

/// The steps of a `for`: how many nodes their longest path has, and the lexemes after the
/// parenthesis.
#[derive(Drop)]
pub struct ReadSteps<'a> {
    pub steps: List<Effect>,
    pub height: u32,
    pub rest: &'a [Lexeme],
}

/// What stands between the parentheses of `for`, and the lexemes after them.
#[derive(Drop)]
pub struct ReadHeader<'a> {
    pub init: Stmts,
    pub test: Option<Expr>,
    pub test_height: u32,
    pub steps: List<Effect>,
    pub steps_height: u32,
    pub rest: &'a [Lexeme],
}

pub fn higher(a: u32, b: u32) -> u32
    ensures { result ≡ max a b }
{
    if a < b { b } else { a }
}

/// The statement, where it is not too high. `_known` are the names known after it.
#[tactic(auto, using(std::proofs::lemmas::Bool::Decides::nat_tests), unfolding(crate::specs::Reading::made))]
pub fn made<'a>(
    _known: &Unit,
    left: u32,
    tree: Stmt,
    height: u32,
    past: u32,
    rest: &'a [Lexeme],
) -> Result<ReadStmt<'a>, Stop>
    requires { height ≡ stmt_path (stmt_tree tree) }
    ensures value { Gives (λ r. got r (known_of _known.now)) result (made left (stmt_tree tree) (known_of _known.now) past rest.now) }
    ensures measured { Measured left result }
{
    if height <= left {
        Ok(ReadStmt {
            tree,
            height,
            past,
            rest,
        })
    } else {
        Err(Stop::Unread)
    }
}

// ---- lists

pub fn no_stmts(alloc: Global) -> Stmts
    ensures value { stmt_trees result.all ≡ s.no_stmt }
    ensures low { result.height ≡ 0 }
{
    Stmts {
        all: List::new(alloc),
        height: 0,
    }
}

#[tactic(auto, using(crate::proofs::Lists::push_stmts))]
fn add_stmt(all: &mut List<Stmt>, x: Stmt) -> Result<(), NoMemory>
    ensures { OnOk result (stmt_trees all.new ≡ push (stmt_trees all.old) (stmt_tree x)) }
{
    all.push(x)
}

/// With one statement more.
#[tactic(auto, using(crate::proofs::Lists::push_path))]
pub fn with_stmt(left: u32, x: Stmts, tree: Stmt, height: u32) -> Result<Stmts, NoMemory>
    requires known { LowStmts left x }
    requires measured { height ≡ stmt_path (stmt_tree tree) }
    requires low { height ≤ left }
    ensures value { IfOk result (λ r. stmt_trees r.all ≡ push (stmt_trees x.all) (stmt_tree tree)) }
    ensures low { IfOk result (λ r. LowStmts left r) }
{
    let mut all = x.all;
    add_stmt(&mut all, tree)?;
    Ok(Stmts {
        all,
        height: higher(x.height, height),
    })
}

pub fn no_groups(alloc: Global) -> Groups
    ensures value { group_trees result.all ≡ s.no_group }
    ensures low { result.height ≡ 0 }
{
    Groups {
        all: List::new(alloc),
        height: 0,
    }
}

#[tactic(auto, using(crate::proofs::Folds::push_groups))]
fn add_group(
    all: &mut List<Group>,
    labels: List<Option<Expr>>,
    body: List<Stmt>,
) -> Result<(), NoMemory>
    ensures { OnOk result (group_trees all.new ≡ push_group (group_trees all.old) (map (option_map expr_tree) labels) (stmt_trees body)) }
{
    all.push(Group { labels, body })
}

/// With one group more.
#[tactic(auto, using(crate::proofs::Lists::push_groups_path))]
pub fn with_group<'a>(
    left: u32,
    x: Groups,
    labels: ReadLabels<'a>,
    body: Stmts,
) -> Result<Groups, NoMemory>
    requires known { LowGroups left x }
    requires labels { MeasuredLabels left (Ok labels) }
    requires body { LowStmts left body }
    ensures value { IfOk result (λ r. group_trees r.all ≡ push_group (group_trees x.all) (map (option_map expr_tree) labels.entry.labels) (stmt_trees body.all)) }
    ensures low { IfOk result (λ r. LowGroups left r) }
{
    let mut all = x.all;
    add_group(&mut all, labels.labels, body.all)?;
    Ok(Groups {
        all,
        height: higher(x.height, higher(labels.height, body.height)),
    })
}

// ---- statements without statements in them

pub fn empty(first: u32, past: u32) -> Stmt
    ensures { stmt_tree result ≡ spelled first past s.empty }
{
    Stmt {
        span: span_between(first, past),
        kind: StmtKind::Empty,
    }
}

pub fn breaks(first: u32, past: u32) -> Stmt
    ensures { stmt_tree result ≡ spelled first past s.break }
{
    Stmt {
        span: span_between(first, past),
        kind: StmtKind::Break,
    }
}

pub fn continues(first: u32, past: u32) -> Stmt
    ensures { stmt_tree result ≡ spelled first past s.continue }
{
    Stmt {
        span: span_between(first, past),
        kind: StmtKind::Continue,
    }
}

pub fn returns(first: u32, past: u32, r: Option<Rhs>) -> Stmt
    ensures { stmt_tree result ≡ spelled first past (s.return (option_map rhs_tree r)) }
{
    Stmt {
        span: span_between(first, past),
        kind: StmtKind::Return(r),
    }
}

pub fn of_effect(first: u32, past: u32, e: Effect) -> Stmt
    ensures { stmt_tree result ≡ spelled first past (s.effect (effect_tree e)) }
{
    Stmt {
        span: span_between(first, past),
        kind: StmtKind::Effect(e),
    }
}

pub fn declares(span: Span, n: u32, t: CType, r: Option<Rhs>) -> Stmt
    ensures { stmt_tree result ≡ stmt span (s.declare n (type_tree t) (option_map rhs_tree r)) }
{
    Stmt {
        span,
        kind: StmtKind::Declare(n, t, r),
    }
}

// ---- statements of statements

pub fn of_block(first: u32, past: u32, all: List<Stmt>) -> Stmt
    ensures { stmt_tree result ≡ spelled first past (s.block (stmt_trees all)) }
{
    Stmt {
        span: span_between(first, past),
        kind: StmtKind::Block(all),
    }
}

pub fn of_switch(first: u32, past: u32, x: Expr, all: List<Group>) -> Stmt
    ensures { stmt_tree result ≡ spelled first past (s.switch (expr_tree x) (group_trees all)) }
{
    Stmt {
        span: span_between(first, past),
        kind: StmtKind::Switch(x, all),
    }
}

#[tactic(auto, using(crate::proofs::Folds::of_if))]
fn of_if(alloc: Global, first: u32, past: u32, x: Expr, a: Stmt) -> Result<Stmt, AllocError>
    ensures { IfOk result (λ t. stmt_tree t ≡ spelled first past (s.if_alone (expr_tree x) (stmt_tree a))) }
{
    Ok(Stmt {
        span: span_between(first, past),
        kind: StmtKind::If(x, Box::new(alloc, a)?, None),
    })
}

#[tactic(auto, using(crate::proofs::Folds::of_else))]
fn of_else(
    alloc: Global,
    first: u32,
    past: u32,
    x: Expr,
    a: Stmt,
    b: Stmt,
) -> Result<Stmt, AllocError>
    ensures { IfOk result (λ t. stmt_tree t ≡ spelled first past (s.if_else (expr_tree x) (stmt_tree a) (stmt_tree b))) }
{
    let a = Box::new(alloc, a)?;
    let b = Box::new(alloc, b)?;
    Ok(Stmt {
        span: span_between(first, past),
        kind: StmtKind::If(x, a, Some(b)),
    })
}

fn of_while(alloc: Global, first: u32, past: u32, x: Expr, a: Stmt) -> Result<Stmt, AllocError>
    ensures { IfOk result (λ t. stmt_tree t ≡ spelled first past (s.while (expr_tree x) (stmt_tree a))) }
{
    Ok(Stmt {
        span: span_between(first, past),
        kind: StmtKind::While(x, Box::new(alloc, a)?),
    })
}

fn of_do(alloc: Global, first: u32, past: u32, a: Stmt, x: Expr) -> Result<Stmt, AllocError>
    ensures { IfOk result (λ t. stmt_tree t ≡ spelled first past (s.do_while (stmt_tree a) (expr_tree x))) }
{
    Ok(Stmt {
        span: span_between(first, past),
        kind: StmtKind::DoWhile(Box::new(alloc, a)?, x),
    })
}

fn of_for(
    alloc: Global,
    first: u32,
    past: u32,
    init: List<Stmt>,
    test: Option<Expr>,
    steps: List<Effect>,
    a: Stmt,
) -> Result<Stmt, AllocError>
    ensures { IfOk result (λ t. stmt_tree t ≡ spelled first past (s.for (stmt_trees init) (option_map expr_tree test) (map effect_tree steps) (stmt_tree a))) }
{
    Ok(Stmt {
        span: span_between(first, past),
        kind: StmtKind::For(init, test, steps, Box::new(alloc, a)?),
    })
}

/// An `if` without `else`, which begins at `first`.
pub fn if_alone<'a>(
    alloc: Global,
    known: &Unit,
    left: u32,
    first: u32,
    x: Read<'a>,
    a: ReadStmt<'a>,
) -> Result<ReadStmt<'a>, Stop>
    requires shallow { left ≤ 400 }
    requires known { expr.Measured (left - 1) (Ok x) }
    requires known_too { Measured (left - 1) (Ok a) }
    ensures value { Gives (λ r. got r (known_of known.now)) result (ended left first (s.if_alone (expr_tree x.entry.tree) (stmt_tree a.entry.tree)) (got a.entry (known_of known.now))) }
    ensures measured { Measured left result }
{
    let height = higher(x.height, a.height) + 1;
    let tree = of_if(alloc, first, a.past, x.tree, a.tree)?;
    made(known, left, tree, height, a.past, a.rest)
}

/// What stopped the reader of the second statement of an `if`, of which the first is let go.
pub fn stopped<'a>(_x: Read<'a>, _a: ReadStmt<'a>, stop: Stop) -> Stop
    ensures { result ≡ stop }
{
    stop
}

/// An `if` with `else`, which begins at `first`.
pub fn if_else<'a>(
    alloc: Global,
    known: &Unit,
    left: u32,
    first: u32,
    x: Read<'a>,
    a: ReadStmt<'a>,
    b: ReadStmt<'a>,
) -> Result<ReadStmt<'a>, Stop>
    requires shallow { left ≤ 400 }
    requires known { expr.Measured (left - 1) (Ok x) }
    requires known_too { Measured (left - 1) (Ok a) }
    requires known_last { Measured (left - 1) (Ok b) }
    ensures value { Gives (λ r. got r (known_of known.now)) result (ended left first (s.if_else (expr_tree x.entry.tree) (stmt_tree a.entry.tree) (stmt_tree b.entry.tree)) (got b.entry (known_of known.now))) }
    ensures measured { Measured left result }
{
    let height = higher(x.height, higher(a.height, b.height)) + 1;
    let tree = of_else(alloc, first, b.past, x.tree, a.tree, b.tree)?;
    made(known, left, tree, height, b.past, b.rest)
}

/// A `while`, which begins at `first`.
pub fn while_loop<'a>(
    alloc: Global,
    known: &Unit,
    left: u32,
    first: u32,
    x: Read<'a>,
    a: ReadStmt<'a>,
) -> Result<ReadStmt<'a>, Stop>
    requires shallow { left ≤ 400 }
    requires known { expr.Measured (left - 1) (Ok x) }
    requires known_too { Measured (left - 1) (Ok a) }
    ensures value { Gives (λ r. got r (known_of known.now)) result (ended left first (s.while (expr_tree x.entry.tree) (stmt_tree a.entry.tree)) (got a.entry (known_of known.now))) }
    ensures measured { Measured left result }
{
    let height = higher(x.height, a.height) + 1;
    let tree = of_while(alloc, first, a.past, x.tree, a.tree)?;
    made(known, left, tree, height, a.past, a.rest)
}

/// A `do`, from `first` up to `past`; `rest` are the lexemes after it.
pub fn do_loop<'a>(
    alloc: Global,
    known: &Unit,
    left: u32,
    first: u32,
    past: u32,
    a: ReadStmt<'a>,
    x: Read<'a>,
    rest: &'a [Lexeme],
) -> Result<ReadStmt<'a>, Stop>
    requires shallow { left ≤ 400 }
    requires known { expr.Measured (left - 1) (Ok x) }
    requires known_too { Measured (left - 1) (Ok a) }
    ensures value { Gives (λ r. got r (known_of known.now)) result (made left (spelled first past (s.do_while (stmt_tree a.entry.tree) (expr_tree x.entry.tree))) (known_of known.now) past rest.now) }
    ensures measured { Measured left result }
{
    let height = higher(a.height, x.height) + 1;
    let tree = of_do(alloc, first, past, a.tree, x.tree)?;
    made(known, left, tree, height, past, rest)
}

/// A `for`, which begins at `first`.
pub fn for_loop<'a>(
    alloc: Global,
    known: &Unit,
    left: u32,
    first: u32,
    h: ReadHeader<'a>,
    a: ReadStmt<'a>,
) -> Result<ReadStmt<'a>, Stop>
    requires shallow { left ≤ 400 }
    requires known { MeasuredHeader (left - 1) (Ok h) }
    requires known_too { Measured (left - 1) (Ok a) }
    ensures value { Gives (λ r. got r (known_of known.now)) result (ended left first (for_kind (got_header h.entry (known_of known.now)).tree (stmt_tree a.entry.tree)) (got a.entry (known_of known.now))) }
    ensures measured { Measured left result }
{
    let inside = higher(h.test_height, higher(h.steps_height, a.height));
    let height = higher(h.init.height, inside) + 1;
    let tree = of_for(alloc, first, a.past, h.init.all, h.test, h.steps, a.tree)?;
    made(known, left, tree, height, a.past, a.rest)
}
