ghost use Rattle.std.specs.Prelude.{◌≡◌, ◌↔◌, IsTrue, IsSomeAnd, length, slice_get};

use cx_base::{List, Memory, NoMemory, Region};
use cx_cells::{CellKind, FlatCell, FnType, Form, Part, ResultType, Rules, Tail};
use cx_member::{answers, holds, meets, typed};
use cx_term::Term;
use std::alloc::Global;
use std::test::Fail;

/// A list of one item.
fn one<T: Drop>(alloc: Global, item: T) -> Result<List<T>, NoMemory> {
    let mut list = List::new(alloc);
    list.push(item)?;
    Ok(list)
}

fn bytes_of(alloc: Global, text: &[u8]) -> Result<List<u8>, NoMemory> {
    let mut list = List::new(alloc);
    for b in text {
        list.push(*b)?;
    }
    Ok(list)
}

/// u8 n, of 8 bytes.
fn number(s: u32) -> CellKind {
    CellKind::Val {
        signed: false,
        value: Term::symbol(s),
    }
}

/// ptr array(n)
fn to_array(alloc: Global, n: u32) -> Result<CellKind, NoMemory> {
    Ok(CellKind::Ptr {
        name: 1,
        args: one(alloc, Term::symbol(n))?,
        off: Term::zero(),
        null: false,
    })
}

/// ptr vec, or null
fn to_vec(alloc: Global) -> CellKind {
    CellKind::Ptr {
        name: 0,
        args: List::new(alloc),
        off: Term::zero(),
        null: true,
    }
}

/// region vec = some n of { u8 n; ptr array(n); }
fn vec(alloc: Global) -> Result<Form, NoMemory> {
    let mut head = List::new(alloc);
    head.push(FlatCell {
        at: 0,
        size: 8,
        kind: number(0),
    })?;
    head.push(FlatCell {
        at: 8,
        size: 8,
        kind: to_array(alloc, 0)?,
    })?;
    Ok(Form {
        params: 0,
        binders: 1,
        conds: List::new(alloc),
        head,
        head_size: 16,
        cases_at: 0,
        cases: List::new(alloc),
        tail: None,
        shared: false,
    })
}

/// region array(n) = any8[n];
fn array(alloc: Global) -> Form {
    Form {
        params: 1,
        binders: 0,
        conds: List::new(alloc),
        head: List::new(alloc),
        head_size: 0,
        cases_at: 0,
        cases: List::new(alloc),
        tail: Some(Tail {
            count: Term::symbol(0),
            part: Part {
                binders: 0,
                conds: List::new(alloc),
                cells: List::new(alloc),
                size: 8,
            },
        }),
        shared: false,
    }
}

/// fn first some n (ptr vec null, u8 n) -> u8 n;
fn first(alloc: Global) -> Result<FnType, NoMemory> {
    let mut args = List::new(alloc);
    args.push(to_vec(alloc))?;
    args.push(number(0))?;
    Ok(FnType {
        name: 0,
        binders: 1,
        args,
        conds: List::new(alloc),
        result: Some(ResultType {
            binders: 0,
            cell: number(0),
            conds: List::new(alloc),
        }),
    })
}

fn rules(alloc: Global) -> Result<Option<Rules>, NoMemory> {
    let mut names = List::new(alloc);
    names.push(bytes_of(alloc, b"vec")?)?;
    names.push(bytes_of(alloc, b"array")?)?;
    let mut forms = List::new(alloc);
    forms.push(vec(alloc)?)?;
    forms.push(array(alloc))?;
    let fns = one(alloc, first(alloc)?)?;
    Ok(Rules::new(names, forms, fns, List::new(alloc), List::new(alloc)))
}

/// A vec at 4096 that says that the array at 8192 has so many items, where it has three.
fn memory(alloc: Global, count: u8) -> Result<Memory, Fail> {
    let mut memory = Memory::new(alloc);
    let head = [count, 0, 0, 0, 0, 0, 0, 0, 0, 32, 0, 0, 0, 0, 0, 0];
    memory.add_region(Region {
        base: 4096,
        name: 0,
        args: List::new(alloc),
        bytes: bytes_of(alloc, &head)?,
    })?;
    memory.add_region(Region {
        base: 8192,
        name: 1,
        args: one(alloc, 3)?,
        bytes: bytes_of(alloc, &[7; 24])?,
    })?;
    Ok(memory)
}

/// Whether there is a function at the place, which takes so many arguments.
fn is_call(rules: &Rules, f: u32, args: &[i128]) -> bool
    ensures { IsTrue result ↔ IsSomeAnd (slice_get rules.now.fns f) (λ called. length args.now ≡ length called.args) }
{
    match rules.fns.get(f as usize) {
        Some(called) => args.len() == called.args.len(),
        None => false,
    }
}

#[test]
fn regions_hold_their_types(rt: HostRuntime) -> Result<(), Fail> {
    let alloc = rt.alloc();
    let Some(rules) = rules(alloc)? else {
        panic!(&rt; "no rules");
    };
    let good = memory(alloc, 3)?;
    assert!(&rt; good.len() == 2);
    assert!(&rt; typed(&rules, &good).is_none());
    assert!(&rt; holds(&rules, &good, 0) && holds(&rules, &good, 1));
    let bad = memory(alloc, 4)?;
    assert!(&rt; bad.len() == 2);
    assert!(&rt; typed(&rules, &bad) == Some(0));
    assert!(&rt; !holds(&rules, &bad, 0) && holds(&rules, &bad, 1));
    Ok(())
}

#[test]
fn calls_meet_their_types(rt: HostRuntime) -> Result<(), Fail> {
    let alloc = rt.alloc();
    let Some(rules) = rules(alloc)? else {
        panic!(&rt; "no rules");
    };
    let before = memory(alloc, 3)?;
    // the arguments, and whether they meet the function
    let cases: [([i128; 2], bool); 6] = [
        ([4096, 5], true),
        ([0, 5], true),
        ([4097, 5], false),
        ([8192, 5], false),
        ([4096, -1], false),
        ([4096, 18446744073709551616], false),
    ];
    for c in &cases {
        assert!(&rt; is_call(&rules, 0, &c.0));
        assert!(&rt; meets(&rules, &before, 0, &c.0) == c.1);
    }
    let after = memory(alloc, 3)?;
    let untyped = memory(alloc, 4)?;
    let args = [4096, 5];
    assert!(&rt; is_call(&rules, 0, &args));
    assert!(&rt; answers(&rules, &before, 0, &args, Some(5), &after));
    assert!(&rt; !answers(&rules, &before, 0, &args, Some(6), &after));
    assert!(&rt; !answers(&rules, &before, 0, &args, None, &after));
    assert!(&rt; !answers(&rules, &before, 0, &args, Some(5), &untyped));
    assert!(&rt; !answers(&rules, &before, 0, &args, Some(5), &Memory::new(alloc)));
    Ok(())
}
