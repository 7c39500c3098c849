// The rules that files of the form keep.

ghost use Rattle.std.specs.Prelude.{◌≡◌, length, Option, Some, None, option_map};
ghost use Rattle.std.specs.List.{list_any, list_all};
ghost use Rattle.std.specs.List as list;
ghost use Rattle.std.specs.Str.{bytes_eq};
ghost use Rattle.cx_form.specs.Form as form;
ghost use Rattle.cx_form.specs.Rules as spec;

use crate::tree::{
    Argument, CFile, Cell, Function, FunctionType, Member, Parameter, RegionType, Statement,
    Struct, TypeFile, ValueType, Word,
};

/// What has a name.
pub trait Named {
    ghost use Rattle.std.specs.Prelude.{List, ℕ};

    ghost text: { Self → List ℕ };

    fn text(&self) -> &[u8]
        ensures { result.now ≡ text self.now };
}

impl Named for Struct {
    ghost text = { λ s. s.name.text };

    fn text(&self) -> &[u8] {
        self.name.text.as_slice()
    }
}

impl Named for Member {
    ghost text = { λ m. m.name.text };

    fn text(&self) -> &[u8] {
        self.name.text.as_slice()
    }
}

impl Named for Parameter {
    ghost text = { λ p. p.name.text };

    fn text(&self) -> &[u8] {
        self.name.text.as_slice()
    }
}

impl Named for RegionType {
    ghost text = { λ r. r.name.text };

    fn text(&self) -> &[u8] {
        self.name.text.as_slice()
    }
}

/// The first item and those after it.
fn split<'a, T>(items: &'a [T]) -> Option<(&'a T, &'a [T])>
    ensures { spec.Splits result items.now }
{
    match items {
        [] => None,
        [x, rest @ ..] => Some((x, rest)),
    }
}

/// The first item of a name.
fn find<'a, T: Named>(items: &'a [T], name: &[u8]) -> Option<&'a T>
    ensures { option_map (λ x. x.now) result ≡ list.find (λ x. bytes_eq (T.text x) name.now) items.now }
{
    let mut rest = items;
    while let Some((x, after)) = split(rest) {
        if x.text() == name {
            return Some(x);
        }
        rest = after;
    }
    None
}

/// There is an item of a name.
fn knows<T: Named>(items: &[T], name: &[u8]) -> bool
    ensures { result ≡ spec.is_there (list.find (λ x. bytes_eq (T.text x) name.now) items.now) }
{
    match find(items, name) {
        None => false,
        Some(_) => true,
    }
}

/// Some item has this name.
fn has<T: Named>(items: &[T], name: &[u8]) -> bool
    ensures { result ≡ list_any (λ x. bytes_eq name.now (T.text x)) items.now }
{
    let mut rest = items;
    while let Some((x, after)) = split(rest) {
        if name == x.text() {
            return true;
        }
        rest = after;
    }
    false
}

/// No two items have one name.
fn are_distinct<T: Named>(items: &[T]) -> bool
    ensures { result ≡ spec.are_distinct T.text items.now }
{
    let mut rest = items;
    while let Some((x, after)) = split(rest) {
        if has(after, x.text()) {
            return false;
        }
        rest = after;
    }
    true
}

fn is_known_type(structs: &[Struct], ctype: &ValueType) -> bool
    ensures { result ≡ spec.is_known_type structs.now ctype.now }
{
    match ctype {
        ValueType::UnsignedLong => true,
        ValueType::Pointer(tag) => knows(structs, tag.text.as_slice()),
    }
}

fn are_same_type(left: &ValueType, right: &ValueType) -> bool
    ensures { result ≡ spec.are_same_type (form.ctype_of left.now) (form.ctype_of right.now) }
{
    match left {
        ValueType::UnsignedLong => match right {
            ValueType::UnsignedLong => true,
            ValueType::Pointer(_) => false,
        },
        ValueType::Pointer(a) => match right {
            ValueType::UnsignedLong => false,
            ValueType::Pointer(b) => a.text.as_slice() == b.text.as_slice(),
        },
    }
}

fn have_one_type(left: Option<&ValueType>, right: Option<&ValueType>) -> bool
    ensures { result ≡ spec.have_one_type (option_map (λ t. form.ctype_of t.now) left.entry) (option_map (λ t. form.ctype_of t.now) right.entry) }
{
    match left {
        None => false,
        Some(a) => match right {
            None => false,
            Some(b) => are_same_type(a, b),
        },
    }
}

/// The type of the variable of a name.
fn variable_type<'a>(parameters: &'a [Parameter], name: &[u8]) -> Option<&'a ValueType>
    ensures { option_map (λ t. form.ctype_of t.now) result ≡ form.variable_type parameters.now name.now }
{
    match find(parameters, name) {
        None => None,
        Some(parameter) => Some(&parameter.ctype),
    }
}

/// The type of the member of a name.
fn member_type<'a>(members: &'a [Member], name: &[u8]) -> Option<&'a ValueType>
    ensures { option_map (λ t. form.ctype_of t.now) result ≡ form.member_type members.now name.now }
{
    match find(members, name) {
        None => None,
        Some(member) => Some(&member.ctype),
    }
}

/// The type of the member of a name in the struct to which a value of this type points.
fn member_through<'a>(
    structs: &'a [Struct],
    ctype: &ValueType,
    member: &[u8],
) -> Option<&'a ValueType>
    ensures { option_map (λ t. form.ctype_of t.now) result ≡ form.member_through structs.now (form.ctype_of ctype.now) member.now }
{
    match ctype {
        ValueType::UnsignedLong => None,
        ValueType::Pointer(tag) => match find(structs, tag.text.as_slice()) {
            None => None,
            Some(structure) => member_type(structure.members.as_slice(), member),
        },
    }
}

/// The type of `pointer->member`.
fn field_type<'a>(
    structs: &'a [Struct],
    parameters: &[Parameter],
    pointer: &[u8],
    member: &[u8],
) -> Option<&'a ValueType>
    ensures { option_map (λ t. form.ctype_of t.now) result ≡ form.field_type structs.now parameters.now pointer.now member.now }
{
    match variable_type(parameters, pointer) {
        None => None,
        Some(ctype) => member_through(structs, ctype, member),
    }
}

fn are_known_members(structs: &[Struct], members: &[Member]) -> bool
    ensures { result ≡ list_all (λ m. spec.is_known_type structs.now m.ctype) members.now }
{
    members.iter().all(|m| is_known_type(structs, &m.ctype))
}

#[tactic(auto, unfolding(crate::specs::Rules::is_struct))]
fn is_struct(structs: &[Struct], structure: &Struct) -> bool
    ensures { result ≡ spec.is_struct structs.now structure.now }
{
    structure.members.len() > 0
        && are_distinct(structure.members.as_slice())
        && are_known_members(structs, structure.members.as_slice())
}

#[tactic(auto, unfolding(crate::specs::Rules::is_statement))]
fn is_statement(structs: &[Struct], parameters: &[Parameter], statement: &Statement) -> bool
    ensures { result ≡ spec.is_statement structs.now parameters.now statement.now }
{
    match statement {
        Statement::Load {
            target,
            pointer,
            member,
        } => {
            let left = variable_type(parameters, target.text.as_slice());
            let right = field_type(
                structs,
                parameters,
                pointer.text.as_slice(),
                member.text.as_slice(),
            );
            have_one_type(left, right)
        }
        Statement::Store {
            pointer,
            member,
            value,
        } => {
            let left = field_type(
                structs,
                parameters,
                pointer.text.as_slice(),
                member.text.as_slice(),
            );
            let right = variable_type(parameters, value.text.as_slice());
            have_one_type(left, right)
        }
    }
}

fn are_statements(structs: &[Struct], parameters: &[Parameter], body: &[Statement]) -> bool
    ensures { result ≡ list_all (spec.is_statement structs.now parameters.now) body.now }
{
    body.iter().all(|s| is_statement(structs, parameters, s))
}

/// The function ends as its result asks.
#[tactic(auto, unfolding(crate::specs::Rules::returns))]
fn returns(parameters: &[Parameter], wanted: &Option<ValueType>, value: &Option<Word>) -> bool
    ensures { result ≡ spec.returns parameters.now wanted.now value.now }
{
    match wanted {
        None => value.is_none(),
        Some(ctype) => match value {
            None => false,
            Some(name) => have_one_type(
                variable_type(parameters, name.text.as_slice()),
                Some(ctype),
            ),
        },
    }
}

fn are_known_parameters(structs: &[Struct], parameters: &[Parameter]) -> bool
    ensures { result ≡ list_all (λ p. spec.is_known_type structs.now p.ctype) parameters.now }
{
    parameters.iter().all(|p| is_known_type(structs, &p.ctype))
}

fn is_known_result(structs: &[Struct], ctype: &Option<ValueType>) -> bool
    ensures { result ≡ spec.holds_if_there (spec.is_known_type structs.now) ctype.now }
{
    match ctype {
        None => true,
        Some(ctype) => is_known_type(structs, ctype),
    }
}

fn is_ended(function: &Function) -> bool
    ensures { result ≡ spec.returns function.now.parameters function.now.result (form.value_of function.now.ending) }
{
    match &function.ending {
        None => returns(function.parameters.as_slice(), &function.result, &None),
        Some(ending) => returns(
            function.parameters.as_slice(),
            &function.result,
            &ending.value,
        ),
    }
}

#[tactic(auto, using(std::proofs::lemmas::Bool::Decides::nat_tests), unfolding(crate::specs::Rules::is_function))]
fn is_function(structs: &[Struct], function: &Function) -> bool
    ensures { result ≡ spec.is_function structs.now function.now }
{
    let parameters = function.parameters.as_slice();
    parameters.len() <= 8
        && are_distinct(parameters)
        && are_known_parameters(structs, parameters)
        && is_known_result(structs, &function.result)
        && are_statements(structs, parameters, function.body.as_slice())
        && is_ended(function)
}

fn are_structs(structs: &[Struct], some: &[Struct]) -> bool
    ensures { result ≡ list_all (spec.is_struct structs.now) some.now }
{
    some.iter().all(|s| is_struct(structs, s))
}

fn is_right_function(structs: &[Struct], function: &Option<Function>) -> bool
    ensures { result ≡ spec.holds_if_there (spec.is_function structs.now) function.now }
{
    match function {
        None => true,
        Some(function) => is_function(structs, function),
    }
}

/// The C file keeps the rules.
#[tactic(auto, unfolding(crate::specs::Rules::is_c_form))]
pub fn is_c_form(c: &CFile) -> bool
    ensures { result ≡ spec.is_c_form c.now }
{
    let structs = c.structs.as_slice();
    are_distinct(structs)
        && are_structs(structs, structs)
        && is_right_function(structs, &c.function)
}

fn is_known_region(regions: &[RegionType], argument: &Argument) -> bool
    ensures { result ≡ spec.is_known_region regions.now argument.now }
{
    match argument {
        Argument::Any => true,
        Argument::Pointer(name) => knows(regions, name.text.as_slice()),
    }
}

/// The cells have the names of the members, in order.
#[tactic(auto, unfolding(crate::specs::Rules::are_in_order))]
fn are_in_order(cells: &[Cell], members: &[Member]) -> bool
    ensures { result ≡ spec.are_in_order cells.now members.now }
{
    let mut cells_left = cells;
    let mut members_left = members;
    while let Some((cell, more_cells)) = split(cells_left) {
        match split(members_left) {
            None => return false,
            Some((member, more_members)) => {
                if cell.member.text.as_slice() != member.name.text.as_slice() {
                    return false;
                }
                cells_left = more_cells;
                members_left = more_members;
            }
        }
    }
    members_left.is_empty()
}

fn are_known_cells(regions: &[RegionType], cells: &[Cell]) -> bool
    ensures { result ≡ list_all (λ cell. spec.is_known_region regions.now cell.holds) cells.now }
{
    cells
        .iter()
        .all(|cell| is_known_region(regions, &cell.holds))
}

#[tactic(auto, unfolding(crate::specs::Rules::is_region))]
fn is_region(structs: &[Struct], regions: &[RegionType], region: &RegionType) -> bool
    ensures { result ≡ spec.is_region structs.now regions.now region.now }
{
    match find(structs, region.tag.text.as_slice()) {
        None => false,
        Some(structure) => {
            are_in_order(region.cells.as_slice(), structure.members.as_slice())
                && are_known_cells(regions, region.cells.as_slice())
        }
    }
}

fn are_regions(structs: &[Struct], regions: &[RegionType], some: &[RegionType]) -> bool
    ensures { result ≡ list_all (spec.is_region structs.now regions.now) some.now }
{
    some.iter().all(|r| is_region(structs, regions, r))
}

/// The result is void in both, or in neither.
#[tactic(auto, unfolding(crate::specs::Rules::are_both_void))]
fn are_both_void(ctype: &Option<ValueType>, holds: &Option<Argument>) -> bool
    ensures { result ≡ spec.are_both_void ctype.now holds.now }
{
    match ctype {
        None => match holds {
            None => true,
            Some(_) => false,
        },
        Some(_) => match holds {
            None => false,
            Some(_) => true,
        },
    }
}

fn are_known_arguments(regions: &[RegionType], arguments: &[Argument]) -> bool
    ensures { result ≡ list_all (spec.is_known_region regions.now) arguments.now }
{
    arguments.iter().all(|a| is_known_region(regions, a))
}

fn is_known_answer(regions: &[RegionType], answer: &Option<Argument>) -> bool
    ensures { result ≡ spec.holds_if_there (spec.is_known_region regions.now) answer.now }
{
    match answer {
        None => true,
        Some(argument) => is_known_region(regions, argument),
    }
}

#[tactic(auto, using(std::proofs::lemmas::Bool::Decides::nat_tests), unfolding(crate::specs::Rules::are_agreed))]
fn are_agreed(regions: &[RegionType], function: &Function, line: &FunctionType) -> bool
    ensures { result ≡ spec.are_agreed regions.now function.now line.now }
{
    line.name.text.as_slice() == function.name.text.as_slice()
        && line.arguments.len() == function.parameters.len()
        && are_both_void(&function.result, &line.result)
        && are_known_arguments(regions, line.arguments.as_slice())
        && is_known_answer(regions, &line.result)
}

/// The function and its line are both there or both missing, and agree.
#[tactic(auto, unfolding(crate::specs::Rules::are_both))]
fn are_both(
    regions: &[RegionType],
    function: &Option<Function>,
    line: &Option<FunctionType>,
) -> bool
    ensures { result ≡ spec.are_both regions.now function.now line.now }
{
    match function {
        None => match line {
            None => true,
            Some(_) => false,
        },
        Some(function) => match line {
            None => false,
            Some(line) => are_agreed(regions, function, line),
        },
    }
}

/// The type file keeps the rules beside the C file.
#[tactic(auto, unfolding(crate::specs::Rules::is_type_form))]
pub fn is_type_form(c: &CFile, t: &TypeFile) -> bool
    ensures { result ≡ spec.is_type_form c.now t.now }
{
    let regions = t.regions.as_slice();
    are_distinct(regions)
        && are_regions(c.structs.as_slice(), regions, regions)
        && are_both(regions, &c.function, &t.function)
}
