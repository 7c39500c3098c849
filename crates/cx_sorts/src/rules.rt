ghost use Rattle.std.specs.Prelude.{◌≡◌, map, find, IfOk, option_map, option_copied};
ghost use Rattle.std.specs.Result.{result_map_both};
ghost use Rattle.cx_sorts.specs.Names.{same_name};
ghost use Rattle.cx_sorts.specs.Meaning.{cover, member_offset};
ghost use Rattle.cx_sorts.specs.Rules.{region_of, sort_of, target_of, known_target, region_type, cell_at, within, held_at, fits, may_store, loaded, rule, access_span, result_alarm, return_alarm};

use crate::layout::{member_at, offset_of, struct_size};
use crate::names::{place_of, same_name, struct_of, variable};
use crate::verdict::{Access, Condition, Sort};
use cx_base::{List, NoMemory, Span};
use cx_form::{
    Argument, CFile, Ending, Function, FunctionType, RegionType, Statement, Struct, TypeFile,
    ValueType, Word,
};
use std::alloc::Global;

fn cover(a: &Word, b: &Word) -> Span
    ensures { result ≡ cover a.now b.now }
{
    Span {
        first: a.span.first.min(b.span.first),
        past: a.span.past.max(b.span.past),
    }
}

fn member_offset(c: &CFile, f: &Function, p: &Word, m: &Word) -> Option<u128>
    ensures { result ≡ member_offset c.now f.now p.now m.now }
{
    let parameter = f.parameters.get(variable(f, p)?)?;
    match &parameter.ctype {
        ValueType::UnsignedLong => None,
        ValueType::Pointer(tag) => offset_of(struct_of(c, tag)?, m),
    }
}

fn region_of(types: &TypeFile, name: &Word) -> Option<u32>
    ensures { result ≡ region_of types.now name.now }
{
    match place_of(types, name) {
        Some(k) => u32::try_from(k).ok(),
        None => None,
    }
}

fn sort_of(types: &TypeFile, holds: &Argument) -> Sort
    ensures { result ≡ sort_of types.now holds.now }
{
    match holds {
        Argument::Any => Sort::Any,
        Argument::Pointer(name) => match region_of(types, name) {
            Some(k) => Sort::Pointer(k),
            None => Sort::Any,
        },
    }
}

/// The sorts of the parameters of a function as it begins.
pub fn sorts_of(
    alloc: Global,
    types: &TypeFile,
    declared: &FunctionType,
) -> Result<List<Sort>, NoMemory>
    ensures { IfOk result (λ sorts. sorts ≡ map (sort_of types.now) declared.now.arguments) }
{
    let mut sorts = List::new(alloc);
    for holds in declared.arguments.as_slice() {
        sorts.push(sort_of(types, holds))?;
    }
    Ok(sorts)
}

fn target_of(sort: Sort) -> Option<u32>
    ensures { result ≡ target_of sort }
{
    match sort {
        Sort::Any => None,
        Sort::Pointer(k) => Some(k),
    }
}

fn known_target(f: &Function, sorts: &List<Sort>, x: &Word) -> Option<u32>
    ensures { result ≡ known_target f.now sorts.now x.now }
{
    target_of(*sorts.get(variable(f, x)?)?)
}

fn region_type<'a>(
    c: &'a CFile,
    types: &'a TypeFile,
    k: u32,
) -> Option<(&'a RegionType, &'a Struct)>
    ensures { option_map (λ t. (t.0.now, t.1.now)) result ≡ region_type c.now types.now k }
{
    let region = types.regions.get(k as usize)?;
    let s = struct_of(c, &region.tag)?;
    Some((region, s))
}

fn cell_named<'a>(region: &'a RegionType, name: &Word) -> Option<&'a Argument>
    ensures { option_copied result ≡ option_map (λ cell. cell.holds) (find (λ cell. same_name name.now cell.member) region.now.cells) }
{
    let cell = region
        .cells
        .as_slice()
        .iter()
        .find(|cell| same_name(name, &cell.member))?;
    Some(&cell.holds)
}

#[tactic(auto, using(crate::proofs::Cells::nothing_begins, crate::proofs::Cells::another_is_meant))]
fn cell_at<'a>(region: &'a RegionType, s: &Struct, offset: u128) -> Option<&'a Argument>
    ensures { option_copied result ≡ cell_at region.now s.now offset }
{
    let m = member_at(s, offset)?;
    if offset_of(s, &m.name) != Some(offset) {
        return None;
    }
    cell_named(region, &m.name)
}

fn within(size: u128, offset: u128) -> Option<u128>
    ensures { result ≡ within size offset }
{
    if size >= 8 && offset <= size - 8 {
        Some(offset)
    } else {
        None
    }
}

fn held_at<'a>(
    c: &'a CFile,
    types: &'a TypeFile,
    f: &Function,
    k: u32,
    p: &Word,
    m: &Word,
) -> Option<Option<&'a Argument>>
    ensures { option_map option_copied result ≡ held_at c.now types.now f.now k p.now m.now }
{
    let (region, s) = region_type(c, types, k)?;
    let offset = within(struct_size(s), member_offset(c, f, p, m)?)?;
    Some(cell_at(region, s, offset))
}

fn fits(types: &TypeFile, known: Option<u32>, holds: &Argument) -> bool
    ensures { result ≡ fits types.now known holds.now }
{
    match holds {
        Argument::Any => true,
        Argument::Pointer(name) => match region_of(types, name) {
            Some(k) => known == Some(k),
            None => false,
        },
    }
}

fn take_load(
    types: &TypeFile,
    f: &Function,
    sorts: &mut List<Sort>,
    x: &Word,
    held: Option<&Argument>,
)
    ensures { sorts.new ≡ loaded types.now f.now sorts.old x.now (option_copied held.entry) }
{
    let sort = match held {
        Some(holds) => sort_of(types, holds),
        None => Sort::Any,
    };
    if let Some(i) = variable(f, x) {
        if i < sorts.len() {
            sorts.set(i, sort);
        }
    }
}

fn may_store(types: &TypeFile, known: Option<u32>, held: Option<&Argument>) -> bool
    ensures { result ≡ may_store types.now known (option_copied held.entry) }
{
    match held {
        Some(holds) => fits(types, known, holds),
        None => false,
    }
}

/// What the rules say of a statement: the access that it makes, or the number of the condition
/// that is not shown. The sorts become those after it.
pub fn rule(
    c: &CFile,
    types: &TypeFile,
    f: &Function,
    sorts: &mut List<Sort>,
    statement: &Statement,
) -> Result<Access, u8>
    ensures { result_map_both (λ access. (access, sorts.new)) (λ n. n) result ≡ rule c.now types.now f.now sorts.old statement.now }
{
    match statement {
        Statement::Load {
            target,
            pointer,
            member,
        } => {
            let name = known_target(f, sorts, pointer).ok_or(2u8)?;
            let held = held_at(c, types, f, name, pointer, member).ok_or(4u8)?;
            take_load(types, f, sorts, target, held);
            Ok(Access {
                span: cover(pointer, member),
                name,
            })
        }
        Statement::Store {
            pointer,
            member,
            value,
        } => {
            let name = known_target(f, sorts, pointer).ok_or(2u8)?;
            let held = held_at(c, types, f, name, pointer, member).ok_or(4u8)?;
            if !may_store(types, known_target(f, sorts, value), held) {
                return Err(5);
            }
            Ok(Access {
                span: cover(pointer, member),
                name,
            })
        }
    }
}

/// The span of the access that a statement makes.
pub fn access_span(statement: &Statement) -> Span
    ensures { result ≡ access_span statement.now }
{
    match statement {
        Statement::Load {
            target: _,
            pointer,
            member,
        } => cover(pointer, member),
        Statement::Store {
            pointer,
            member,
            value: _,
        } => cover(pointer, member),
    }
}

fn result_alarm(
    types: &TypeFile,
    f: &Function,
    sorts: &List<Sort>,
    ending: &Ending,
    declared: &FunctionType,
) -> Option<Condition>
    ensures { result ≡ result_alarm types.now f.now sorts.now ending.now.span ending.now.value declared.now.result }
{
    let x = ending.value.as_ref()?;
    let holds = declared.result.as_ref()?;
    if fits(types, known_target(f, sorts, x), holds) {
        return None;
    }
    Some(Condition {
        number: 14,
        span: ending.span,
    })
}

/// The condition that is not shown at the return, if there is one.
pub fn return_alarm(
    types: &TypeFile,
    f: &Function,
    declared: &FunctionType,
    sorts: &List<Sort>,
) -> Option<Condition>
    ensures { result ≡ return_alarm types.now f.now declared.now sorts.now }
{
    match &f.ending {
        Some(ending) => result_alarm(types, f, sorts, ending, declared),
        None => None,
    }
}
