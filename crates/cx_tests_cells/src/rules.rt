use cx_base::{List, NoMemory};
use cx_cells::{
    AllocArg, AllocType, CaseBranch, CellKind, FlatCell, FnType, Form, GlobalType, Part,
    ResultType, Rules, Tail, Told, cell_range, kind_names, telling_cell, telling_kind, told_by,
};
use cx_ctree::CType;
use cx_term::{Ineq, Term};
use std::alloc::Global;
use std::test::Fail;

/// A kind by its number: 0 any bytes, 1 a value without a sign, 2 a pointer to region 0, 3 one that
/// may be null, 4 a pointer to region 1; the value or the argument is the symbol.
fn kind(alloc: Global, number: u32, s: u32) -> Result<CellKind, NoMemory> {
    if number == 0 {
        return Ok(CellKind::Any);
    }
    if number == 1 {
        return Ok(CellKind::Val {
            signed: false,
            value: Term::symbol(s),
        });
    }
    let mut args = List::new(alloc);
    args.push(Term::symbol(s))?;
    Ok(CellKind::Ptr {
        name: if number == 4 { 1 } else { 0 },
        args,
        off: Term::zero(),
        null: number == 3,
    })
}

/// The cells, each as its offset, its size, the number of its kind, and its symbol.
fn cells(alloc: Global, rows: &[[u32; 4]]) -> Result<List<FlatCell>, NoMemory> {
    let mut list = List::new(alloc);
    for r in rows {
        list.push(FlatCell {
            at: r[0],
            size: r[1],
            kind: kind(alloc, r[2], r[3])?,
        })?;
    }
    Ok(list)
}

/// A part without conditions.
fn part(alloc: Global, binders: u32, cells: List<FlatCell>, size: u32) -> Part {
    Part {
        binders,
        conds: List::new(alloc),
        cells,
        size,
    }
}

/// A form without conditions, branches and tail.
fn form(alloc: Global, params: u32, binders: u32, head: List<FlatCell>, head_size: u32) -> Form {
    Form {
        params,
        binders,
        conds: List::new(alloc),
        head,
        head_size,
        cases_at: 0,
        cases: List::new(alloc),
        tail: None,
        shared: false,
    }
}

/// One binder in the first 4 bytes, then as many elements as the symbol says, each with one cell.
fn counted(alloc: Global, count: u32, cell: [u32; 4], size: u32) -> Result<Form, NoMemory> {
    let mut counted = form(alloc, 1, 1, cells(alloc, &[[0, 4, 1, 1]])?, 4);
    counted.tail = Some(Tail {
        count: Term::symbol(count),
        part: part(alloc, 0, cells(alloc, &[cell])?, size),
    });
    Ok(counted)
}

/// One binder at the offset 4 of 12 bytes, and two branches there, of these sizes, the first of which
/// names the binder where the second symbol is 0.
fn branched(alloc: Global, cases_at: u32, sizes: [u32; 2], s: u32) -> Result<Form, NoMemory> {
    let mut branched = form(alloc, 1, 1, cells(alloc, &[[4, 4, 1, 1]])?, 12);
    branched.cases_at = cases_at;
    let mut guard = List::new(alloc);
    guard.push(Ineq::Ge(Term::symbol(0)))?;
    branched.cases.push(CaseBranch {
        guard,
        part: part(alloc, 0, cells(alloc, &[[0, 4, 1, s]])?, sizes[0]),
    })?;
    branched.cases.push(CaseBranch {
        guard: List::new(alloc),
        part: part(alloc, 0, List::new(alloc), sizes[1]),
    })?;
    Ok(branched)
}

/// The names as lists of bytes.
fn names(alloc: Global, texts: &[&str]) -> Result<List<List<u8>>, NoMemory> {
    let mut list = List::new(alloc);
    for t in texts {
        let mut name = List::new(alloc);
        for b in t.as_bytes() {
            name.push(*b)?;
        }
        list.push(name)?;
    }
    Ok(list)
}

/// Whether the form is kept where it is the only one.
fn is_kept(alloc: Global, form: Form) -> Result<bool, NoMemory> {
    let mut forms = List::new(alloc);
    forms.push(form)?;
    Ok(Rules::new(
        names(alloc, ["a"].as_slice())?,
        forms,
        List::new(alloc),
        List::new(alloc),
        List::new(alloc),
    )
    .is_some())
}

/// Whether so many forms without bytes are kept by these names.
fn are_names(alloc: Global, texts: &[&str], count: u32) -> Result<bool, NoMemory> {
    let mut forms = List::new(alloc);
    for _ in 0..count {
        forms.push(form(alloc, 0, 0, List::new(alloc), 0))?;
    }
    Ok(Rules::new(
        names(alloc, texts)?,
        forms,
        List::new(alloc),
        List::new(alloc),
        List::new(alloc),
    )
    .is_some())
}

/// Whether these are kept beside one region type, with one parameter.
fn are_calls(
    alloc: Global,
    fns: List<FnType>,
    allocs: List<AllocType>,
    globals: List<GlobalType>,
) -> Result<bool, NoMemory> {
    let mut forms = List::new(alloc);
    forms.push(form(alloc, 1, 0, List::new(alloc), 0))?;
    Ok(Rules::new(names(alloc, ["a"].as_slice())?, forms, fns, allocs, globals).is_some())
}

// Heads, each as its parameters, binders, cells and size, and whether it is kept.
#[test]
fn heads(rt: HostRuntime) -> Result<(), Fail> {
    let alloc = rt.alloc();
    let rows = [
        (1, 1, [[0, 4, 1, 1], [4, 4, 1, 0]], 8, true),
        (1, 1, [[0, 8, 2, 1], [8, 3, 0, 0]], 11, true),
        // the second cell ends past the head
        (1, 1, [[0, 4, 1, 1], [4, 8, 1, 0]], 8, false),
        // the cells meet
        (1, 1, [[0, 4, 1, 1], [2, 4, 1, 0]], 8, false),
        // they stand out of order
        (1, 1, [[4, 4, 1, 1], [0, 4, 1, 0]], 8, false),
        // no integer has 3 bytes
        (1, 1, [[0, 4, 1, 1], [4, 3, 1, 0]], 8, false),
        // there is no symbol 2
        (1, 1, [[0, 4, 1, 1], [4, 4, 1, 2]], 8, false),
        // no cell tells the binder
        (1, 1, [[0, 4, 1, 0], [4, 4, 1, 0]], 8, false),
        // a pointer that may be null tells nothing
        (1, 1, [[0, 8, 3, 1], [8, 4, 1, 0]], 12, false),
        // there is no region type at place 1
        (1, 1, [[0, 8, 4, 1], [8, 4, 1, 0]], 12, false),
        // there are too many parameters
        (9, 0, [[0, 4, 1, 1], [4, 4, 1, 0]], 8, false),
        // there are too many bytes
        (1, 1, [[0, 4, 1, 1], [4, 4, 1, 0]], 2147483649, false),
    ];
    for r in rows.as_slice() {
        let head = cells(alloc, r.2.as_slice())?;
        assert!(&rt; is_kept(alloc, form(alloc, r.0, r.1, head, r.3))? == r.4);
    }
    Ok(())
}

// Tails, each as the symbol of its number of elements, its cell and the size of an element.
#[test]
fn tails(rt: HostRuntime) -> Result<(), Fail> {
    let alloc = rt.alloc();
    let rows = [
        (0, [0, 1, 1, 0], 1, true),
        // the number of elements names a binder
        (1, [0, 1, 1, 0], 1, false),
        // the element has no bytes
        (0, [0, 0, 0, 0], 0, false),
        // it names the form's binder
        (0, [0, 1, 1, 1], 1, false),
    ];
    for r in rows.as_slice() {
        assert!(&rt; is_kept(alloc, counted(alloc, r.0, r.1, r.2)?)? == r.3);
    }
    Ok(())
}

// Branches, as their offset, their sizes, and the symbol that the first names.
#[test]
fn branches(rt: HostRuntime) -> Result<(), Fail> {
    let alloc = rt.alloc();
    let rows = [
        (8, [4, 4], 1, true),
        // the binder is told after the branch that names it
        (0, [4, 4], 1, false),
        // the branch meets the cell
        (5, [4, 4], 0, false),
        // it ends past the head
        (9, [4, 4], 0, false),
        // the branches have two sizes
        (8, [4, 2], 0, false),
    ];
    for r in rows.as_slice() {
        assert!(&rt; is_kept(alloc, branched(alloc, r.0, r.1, r.2)?)? == r.3);
    }
    Ok(())
}

// Two names, and whether they are kept for so many forms.
#[test]
fn region_names(rt: HostRuntime) -> Result<(), Fail> {
    let alloc = rt.alloc();
    let rows = [
        (["_a1", "$"], 2, true),
        // there are fewer forms than names
        (["_a1", "$"], 1, false),
        // two are equal
        (["a1", "a1"], 2, false),
        (["a", ""], 2, false),
        (["a", "1a"], 2, false),
        (["a", "a b"], 2, false),
        (["a", "a-b"], 2, false),
    ];
    for r in rows.as_slice() {
        assert!(&rt; are_names(alloc, r.0.as_slice(), r.1)? == r.2);
    }
    Ok(())
}

/// Whether the function is kept that has so many binders, arguments of the kind with symbol 0 and
/// conditions, and a result of the kind with the symbol and one binder.
fn is_function(
    alloc: Global,
    counts: [u32; 3],
    arg: u32,
    given: [u32; 2],
) -> Result<bool, NoMemory> {
    let mut args = List::new(alloc);
    for _ in 0..counts[1] {
        args.push(kind(alloc, arg, 0)?)?;
    }
    let mut conds = List::new(alloc);
    for _ in 0..counts[2] {
        conds.push(Ineq::Ge(Term::zero()))?;
    }
    let cell = kind(alloc, given[0], given[1])?;
    let mut fns = List::new(alloc);
    fns.push(FnType {
        name: 1,
        binders: counts[0],
        args,
        conds,
        result: Some(ResultType {
            binders: 1,
            cell,
            conds: List::new(alloc),
        }),
    })?;
    are_calls(alloc, fns, List::new(alloc), List::new(alloc))
}

// Functions, each as its binders, arguments and conditions, the kind of its arguments, and that of its
// result with its symbol.
#[test]
fn functions(rt: HostRuntime) -> Result<(), Fail> {
    let alloc = rt.alloc();
    let rows = [
        ([1, 1, 34], 1, [1, 1], true),
        ([1, 1, 32], 2, [2, 1], true),
        // there are more than 32 conditions and two for the argument
        ([1, 1, 35], 1, [1, 1], false),
        // no argument tells the first binder, or the second
        ([1, 0, 0], 1, [1, 1], false),
        ([2, 1, 0], 1, [1, 2], false),
        // there is no symbol 0
        ([0, 1, 0], 1, [1, 0], false),
        // there are too many arguments
        ([1, 9, 0], 1, [1, 1], false),
        // the result does not tell its binder
        ([1, 1, 0], 1, [1, 0], false),
        // an argument is of any bytes, or the result is
        ([0, 1, 0], 0, [1, 0], false),
        ([1, 1, 0], 1, [0, 1], false),
    ];
    for r in rows.as_slice() {
        assert!(&rt; is_function(alloc, r.0, r.1, r.2)? == r.3);
    }
    Ok(())
}

/// An allocator of the name 2 with one parameter.
fn allocator(
    alloc: Global,
    pointee: CType,
    arg: AllocArg,
    bytes: u32,
) -> Result<AllocType, NoMemory> {
    let mut args = List::new(alloc);
    args.push(arg)?;
    Ok(AllocType {
        name: 2,
        params: 1,
        pointee,
        region: 0,
        args,
        bytes,
        times: None,
        zero: false,
    })
}

/// Whether an allocator for pointers to the tag is kept beside one for pointers to tag 0, and a
/// function of this name.
fn is_allocator(
    alloc: Global,
    tag: u32,
    arg: AllocArg,
    bytes: u32,
    name: u32,
) -> Result<bool, NoMemory> {
    let mut allocs = List::new(alloc);
    allocs.push(allocator(alloc, CType::Tag(0), AllocArg::Number(7), 0)?)?;
    allocs.push(allocator(alloc, CType::Tag(tag), arg, bytes)?)?;
    let mut fns = List::new(alloc);
    fns.push(FnType {
        name,
        binders: 0,
        args: List::new(alloc),
        conds: List::new(alloc),
        result: None,
    })?;
    are_calls(alloc, fns, allocs, List::new(alloc))
}

// Allocators, each as its tag, its argument and the place of its bytes, and a function's name.
#[test]
fn allocators(rt: HostRuntime) -> Result<(), Fail> {
    let alloc = rt.alloc();
    let rows = [
        (1, AllocArg::Over(0, 8), 0, 1, true),
        // both are for one call
        (0, AllocArg::Over(0, 8), 0, 1, false),
        // a function has the name
        (1, AllocArg::Over(0, 8), 0, 2, false),
        // there is no parameter 1
        (1, AllocArg::Over(0, 8), 1, 1, false),
        (1, AllocArg::Param(1), 0, 1, false),
        (1, AllocArg::Over(1, 8), 0, 1, false),
        // a divisor is 0
        (1, AllocArg::Over(0, 0), 0, 1, false),
    ];
    for r in rows.as_slice() {
        assert!(&rt; is_allocator(alloc, r.0, r.1, r.2, r.3)? == r.4);
    }
    Ok(())
}

/// Whether two globals are kept, by the name 1 and this one, the second with this argument.
fn are_globals(alloc: Global, name: u32, arg: i128) -> Result<bool, NoMemory> {
    let mut globals = List::new(alloc);
    for g in [(1, 0), (name, arg)].as_slice() {
        let mut args = List::new(alloc);
        args.push(g.1)?;
        globals.push(GlobalType {
            name: g.0,
            region: 0,
            args,
        })?;
    }
    are_calls(alloc, List::new(alloc), List::new(alloc), globals)
}

// Names and arguments of a global beside one of the name 1.
#[test]
fn globals(rt: HostRuntime) -> Result<(), Fail> {
    let alloc = rt.alloc();
    let rows = [
        (2, 18446744073709551616, true),
        // the argument is too great, or too small
        (2, 18446744073709551617, false),
        (2, -18446744073709551617, false),
        // both have one name
        (1, 0, false),
    ];
    for r in rows.as_slice() {
        assert!(&rt; are_globals(alloc, r.0, r.1)? == r.2);
    }
    Ok(())
}

#[test]
fn copies(rt: HostRuntime) -> Result<(), Fail> {
    let alloc = rt.alloc();
    let copy = counted(alloc, 0, [0, 1, 2, 0], 8)?.copy()?;
    assert!(&rt; copy.head.len() == 1 && copy.tail.is_some() && !copy.shared);
    let copy = branched(alloc, 8, [4, 4], 0)?.copy()?;
    assert!(&rt; copy.cases.len() == 2 && copy.cases_at == 8);
    Ok(())
}

#[test]
fn binders_are_told(rt: HostRuntime) -> Result<(), Fail> {
    let alloc = rt.alloc();
    let head = cells(alloc, &[[0, 4, 1, 1], [8, 8, 2, 5]])?;
    assert!(&rt; telling_cell(head.as_slice(), 1) == Some((0, Told::Value)));
    assert!(&rt; telling_cell(head.as_slice(), 2).is_none());
    let to = kind(alloc, 2, 5)?;
    assert!(&rt; kind_names(&to, 5) && told_by(&to, 5) == Some(Told::Argument(0)));
    let mut kinds = List::new(alloc);
    kinds.push(kind(alloc, 1, 2)?)?;
    kinds.push(to.copy()?)?;
    assert!(&rt; telling_kind(kinds.as_slice(), 5) == Some((1, Told::Argument(0))));
    assert!(&rt; cell_range(1, true) == (-128, 127) && cell_range(4, false) == (0, 4294967295));
    Ok(())
}
