use cx_abi::{Layout, LayoutFault, layout, offset_of, size_of};
use cx_base::{CInt, List, Names, NoMemory};
use cx_cname::{add_tag, set_members};
use cx_ctree::{CType, Member, Unit};
use std::alloc::Global;
use std::test::Fail;

// Types are written short. A type is its base and the numbers of elements of arrays of it, the outer
// first: `i.2.3` is int[2][3]. Bases are c, h, i and l for char, short, int and long, p for a pointer,
// and a number for the tag at that place. A tag is its kind, its rank and its members: `s:1:c,l` is
// the struct of a char and a long, `u` is a union, and `o:0:` a tag without members.

fn number_of(digits: &str) -> u32 {
    digits.parse::<u32>().unwrap_or(0)
}

fn base_of(alloc: Global, base: &str) -> Result<CType, NoMemory> {
    let size = match base {
        "c" => 1,
        "h" => 2,
        "i" => 4,
        "l" => 8,
        "p" => return Ok(CType::Ptr(Box::new(alloc, CType::Void)?)),
        _ => return Ok(CType::Tag(number_of(base))),
    };
    Ok(CType::Int(CInt { size, signed: true }))
}

fn array_of(alloc: Global, element: CType, count: &str) -> Result<CType, NoMemory> {
    Ok(CType::Array(Box::new(alloc, element)?, number_of(count)))
}

fn type_of(alloc: Global, code: &str) -> Result<CType, NoMemory> {
    let Some((base, counts)) = code.split_once('.') else {
        return base_of(alloc, code);
    };
    let base = base_of(alloc, base)?;
    match counts.split_once('.') {
        None => array_of(alloc, base, counts),
        Some((outer, inner)) => {
            let element = array_of(alloc, base, inner)?;
            array_of(alloc, element, outer)
        }
    }
}

fn members_of(alloc: Global, codes: &str) -> Result<List<Member>, NoMemory> {
    let mut members = List::new(alloc);
    let mut name = 0u32;
    for code in codes.split(',') {
        let ctype = type_of(alloc, code)?;
        members.push(Member { name, ctype })?;
        name = name.saturating_add(1);
    }
    Ok(members)
}

/// A unit in which nothing is declared.
fn no_declarations(alloc: Global) -> Result<Unit, NoMemory> {
    Ok(Unit {
        names: Names::new(alloc)?,
        tags: List::new(alloc),
        typedefs: List::new(alloc),
        consts: List::new(alloc),
        enums: List::new(alloc),
        items: List::new(alloc),
        tokens: List::new(alloc),
        named: List::new(alloc),
    })
}

/// The kind, the rank and the members of a tag.
fn parts_of(code: &str) -> (&str, u32, &str) {
    let (kind, rest) = code.split_once(':').unwrap_or(("o", ""));
    let (rank, codes) = rest.split_once(':').unwrap_or(("0", ""));
    (kind, number_of(rank), codes)
}

/// Gives the tags of this rank their members; false where these are incomplete.
fn set_ranked(alloc: Global, unit: &mut Unit, codes: &str, rank: u32) -> Result<bool, NoMemory> {
    let mut changes = List::new(alloc);
    for (at, code) in codes.split(' ').enumerate() {
        let (kind, own, members) = parts_of(code);
        if own == rank {
            let members = members_of(alloc, members)?;
            if !set_members(unit, &mut changes, at, None, kind == "u", members)? {
                return Ok(false);
            }
        }
    }
    Ok(true)
}

/// The unit with these structs and unions; None where their ranks are not in order.
fn declared(alloc: Global, codes: &str) -> Result<Option<Unit>, NoMemory> {
    let mut unit = no_declarations(alloc)?;
    if codes.is_empty() {
        return Ok(Some(unit));
    }
    let mut changes = List::new(alloc);
    for code in codes.split(' ') {
        add_tag(&mut unit, &mut changes, None, parts_of(code).0 == "u")?;
    }
    for rank in 1..=32 {
        if !set_ranked(alloc, &mut unit, codes, rank)? {
            return Ok(None);
        }
    }
    Ok(Some(unit))
}

/// Whether the layout has this size and alignment, and members at these places.
fn is_layout(found: &Layout, size: u64, align: u32, offsets: &[u64]) -> bool {
    found.size == size
        && found.align == align
        && found.fields.len() == offsets.len()
        && found
            .fields
            .as_slice()
            .iter()
            .zip(offsets)
            .all(|(f, offset)| f.offset == *offset)
}

/// Whether `size_of` and `offset_of` say the same of the type as the layout.
fn is_same(unit: &Unit, ctype: &CType, found: &Layout) -> bool {
    if size_of(unit, ctype) != Some(found.size) {
        return false;
    }
    match ctype {
        CType::Tag(tag) => found
            .fields
            .as_slice()
            .iter()
            .all(|f| offset_of(unit, *tag, f.name) == Some(f.offset)),
        CType::Void | CType::Int(_) | CType::Ptr(_) | CType::Array(_, _) => true,
    }
}

/// Whether the type has this layout.
fn has_layout(
    alloc: Global,
    tags: &str,
    code: &str,
    size: u64,
    align: u32,
    offsets: &[u64],
) -> Result<bool, Fail> {
    let Some(unit) = declared(alloc, tags)? else {
        return Ok(false);
    };
    let ctype = type_of(alloc, code)?;
    let found = layout(alloc, &unit, &ctype)?;
    Ok(is_layout(&found, size, align, offsets) && is_same(&unit, &ctype, &found))
}

/// The fault of a type without a layout: whether it is too big, else incomplete, and the tag.
fn fault_of(alloc: Global, tags: &str, code: &str) -> Result<Option<(bool, u32)>, Fail> {
    let Some(unit) = declared(alloc, tags)? else {
        return Ok(None);
    };
    let ctype = type_of(alloc, code)?;
    if size_of(&unit, &ctype).is_some() {
        return Ok(None);
    }
    match layout(alloc, &unit, &ctype) {
        Ok(_) => Ok(None),
        Err(LayoutFault::Incomplete(tag)) => Ok(Some((false, tag))),
        Err(LayoutFault::TooBig(tag)) => Ok(Some((true, tag))),
        Err(LayoutFault::NoMemory) => Err(Fail::from(NoMemory)),
    }
}

// Sizes, alignments and offsets are those that gcc 12.2 gives on x86-64 by sizeof, _Alignof and
// offsetof for the object x.
#[test]
fn layouts_are_those_of_a_compiler(rt: HostRuntime) -> Result<(), Fail> {
    let table: [(&str, &str, u64, u32, &[u64]); 56] = [
        // struct s { char a; long b; short c; } x;
        ("s:1:c,l,h", "0", 24, 8, &[0, 8, 16]),
        // struct s { char a; } x;
        ("s:1:c", "0", 1, 1, &[0]),
        // struct s { short a; char b; } x;
        ("s:1:h,c", "0", 4, 2, &[0, 2]),
        // struct s { char a; short b; } x;
        ("s:1:c,h", "0", 4, 2, &[0, 2]),
        // struct s { char a; int b; } x;
        ("s:1:c,i", "0", 8, 4, &[0, 4]),
        // struct s { int a; char b; } x;
        ("s:1:i,c", "0", 8, 4, &[0, 4]),
        // struct s { char a; char b; short c; } x;
        ("s:1:c,c,h", "0", 4, 2, &[0, 1, 2]),
        // struct s { char a; short b; char c; } x;
        ("s:1:c,h,c", "0", 6, 2, &[0, 2, 4]),
        // struct s { char a; int b; char c; } x;
        ("s:1:c,i,c", "0", 12, 4, &[0, 4, 8]),
        // struct s { long a; char b; } x;
        ("s:1:l,c", "0", 16, 8, &[0, 8]),
        // struct s { char a; char *b; } x;
        ("s:1:c,p", "0", 16, 8, &[0, 8]),
        // struct s { void *a; short b; char c; } x;
        ("s:1:p,h,c", "0", 16, 8, &[0, 8, 10]),
        // struct s { int a; int b; int c; } x;
        ("s:1:i,i,i", "0", 12, 4, &[0, 4, 8]),
        // struct s { char a[7]; } x;
        ("s:1:c.7", "0", 7, 1, &[0]),
        // struct s { char a[7]; int b; } x;
        ("s:1:c.7,i", "0", 12, 4, &[0, 8]),
        // struct s { short a[3]; char b; } x;
        ("s:1:h.3,c", "0", 8, 2, &[0, 6]),
        // struct s { char a; long b[2]; } x;
        ("s:1:c,l.2", "0", 24, 8, &[0, 8]),
        // struct s { char a; int b[2][3]; short c; } x;
        ("s:1:c,i.2.3,h", "0", 32, 4, &[0, 4, 28]),
        // struct s { char a; char *b[3]; char c; } x;
        ("s:1:c,p.3,c", "0", 40, 8, &[0, 8, 32]),
        // struct s { unsigned char a; unsigned long b; unsigned short c; unsigned int d; } x;
        ("s:1:c,l,h,i", "0", 24, 8, &[0, 8, 16, 20]),
        // struct s { int a; long long b; signed char c; } x;
        ("s:1:i,l,c", "0", 24, 8, &[0, 8, 16]),
        // union s { char a; long b; } x;
        ("u:1:c,l", "0", 8, 8, &[0, 0]),
        // union s { char a[5]; short b; } x;
        ("u:1:c.5,h", "0", 6, 2, &[0, 0]),
        // union s { char a[9]; int b; } x;
        ("u:1:c.9,i", "0", 12, 4, &[0, 0]),
        // union s { void *a; int b[3]; } x;
        ("u:1:p,i.3", "0", 16, 8, &[0, 0]),
        // union s { short a; } x;
        ("u:1:h", "0", 2, 2, &[0]),
        // struct p { char a; int b; }; struct s { char a; struct p b; } x;
        ("s:1:c,i s:2:c,0", "1", 12, 4, &[0, 4]),
        // struct p { char a; int b; }; struct s { struct p a; char b; } x;
        ("s:1:c,i s:2:0,c", "1", 12, 4, &[0, 8]),
        // struct p { char a; int b; }; struct s { struct p a[3]; char b; } x;
        ("s:1:c,i s:2:0.3,c", "1", 28, 4, &[0, 24]),
        // struct p { long a; char b; }; struct s { char a; struct p b; short c; } x;
        ("s:1:l,c s:2:c,0,h", "1", 32, 8, &[0, 8, 24]),
        // struct p { char a[3]; }; struct s { struct p a; short b; } x;
        ("s:1:c.3 s:2:0,h", "1", 6, 2, &[0, 4]),
        // struct p { char a[3]; }; struct s { char a; struct p b[2]; int c; } x;
        ("s:1:c.3 s:2:c,0.2,i", "1", 12, 4, &[0, 1, 8]),
        // union p { short a; char b[3]; }; struct s { char a; union p b; char c; } x;
        ("u:1:h,c.3 s:2:c,0,c", "1", 8, 2, &[0, 2, 6]),
        // struct p { char a; int b; }; union s { struct p a; char b[9]; } x;
        ("s:1:c,i u:2:0,c.9", "1", 12, 4, &[0, 0]),
        // struct p { char a; int b; }; union q { struct p a; char b[9]; }; struct s { union q a; char b; } x;
        ("s:1:c,i u:2:0,c.9 s:3:1,c", "2", 16, 4, &[0, 12]),
        // union p { char a[5]; short b; }; union s { union p a; int b; } x;
        ("u:1:c.5,h u:2:0,i", "1", 8, 4, &[0, 0]),
        // struct s { int a; struct s *b; } x;
        ("s:1:i,p", "0", 16, 8, &[0, 8]),
        // struct s { char a; struct s *b[2]; union u *c; } x;
        ("s:1:c,p.2,p o:0:", "0", 32, 8, &[0, 8, 24]),
        // struct o; struct s { struct o *a; char b; } x;
        ("o:0: s:1:p,c", "1", 16, 8, &[0, 8]),
        // struct p { int a; struct p *b; }; struct s { struct p a; struct p *b; char c; } x;
        ("s:1:i,p s:2:0,p,c", "1", 32, 8, &[0, 16, 24]),
        // struct s { char a; struct { short b; long c; } d; char e; } x;
        ("s:2:c,1,c s:1:h,l", "0", 32, 8, &[0, 8, 24]),
        // struct p { char a; struct { short b; long c; } d; }; struct s { int a[2]; struct p b; unsigned short c; } x;
        ("s:2:c,1 s:1:h,l s:3:i.2,0,h", "2", 40, 8, &[0, 8, 32]),
        // struct p { char a; short b; }; struct q { struct p a[2]; long b; }; struct s { char a; struct q b[2]; struct p c; } x;
        ("s:1:c,h s:2:0.2,l s:3:c,1.2,0", "2", 48, 8, &[0, 8, 40]),
        // struct p { char a; long b; short c; }; union u { struct p a; char b[25]; }; struct s { union u a[2]; char b; } x;
        ("s:1:c,l,h u:2:0,c.25 s:3:1.2,c", "2", 72, 8, &[0, 64]),
        // typedef struct { char a; int b; } t; struct s { char a; t b; t *c; } x;
        ("s:1:c,i s:2:c,0,p", "1", 24, 8, &[0, 4, 16]),
        // enum e { E }; struct s { char a; enum e b; char c; } x;
        ("s:1:c,i,c", "0", 12, 4, &[0, 4, 8]),
        // char x;
        ("", "c", 1, 1, &[]),
        // unsigned short x;
        ("", "h", 2, 2, &[]),
        // int x;
        ("", "i", 4, 4, &[]),
        // unsigned long long x;
        ("", "l", 8, 8, &[]),
        // void *x;
        ("", "p", 8, 8, &[]),
        // struct o *x;
        ("o:0:", "p", 8, 8, &[]),
        // int x[7];
        ("", "i.7", 28, 4, &[]),
        // char *x[2][5];
        ("", "p.2.5", 80, 8, &[]),
        // struct p { char a; short b; char c; }; struct p x[3];
        ("s:1:c,h,c", "0.3", 18, 2, &[]),
        // union p { char a[5]; short b; }; union p x[2][2];
        ("u:1:c.5,h", "0.2.2", 24, 2, &[]),
    ];
    for (tags, code, size, align, offsets) in table {
        assert!(rt;
            has_layout(rt.alloc(), tags, code, size, align, offsets)?,
            "at {tags} {code}"
        );
    }
    Ok(())
}

// A tag's number in a fault is its place; arrays have 0.
#[test]
fn types_without_a_layout(rt: HostRuntime) -> Result<(), Fail> {
    let table = [
        // struct p; struct s { char a[2147483648]; char b; } x;
        ("o:0: s:1:c.2147483648,c", "1", true, 1),
        // char x[2147483647][2];
        ("", "c.2147483647.2", true, 0),
        // long x[2147483648][2147483648];
        ("", "l.2147483648.2147483648", true, 0),
        // struct p; struct q { char a[2147483648]; char b; }; struct s { struct q a; int b[2147483648]; } x;
        ("o:0: s:1:c.2147483648,c s:2:1,i.2147483648", "2", true, 1),
        // struct p; struct s { int b[2147483648]; char a; } x;
        ("o:0: s:1:i.2147483648,c", "1", true, 0),
        // struct p; union u { char a[2147483648]; long b; }; struct s { union u a; char b; } x;
        ("o:0: u:1:c.2147483648,l s:2:1,c", "2", true, 2),
        // struct p; struct q { char a[1073741825]; }; struct q x[2];
        ("o:0: s:1:c.1073741825", "1.2", true, 0),
        // struct p { int a; }; extern struct o x;
        ("s:1:i o:0:", "1", false, 1),
        // struct p { int a; }; extern struct o x[2];
        ("s:1:i o:0:", "1.2", false, 1),
    ];
    for (tags, code, too_big, tag) in table {
        assert_eq!(rt;
            fault_of(rt.alloc(), tags, code)?,
            Some((too_big, tag)),
            "at {tags} {code}"
        );
    }
    Ok(())
}

#[test]
fn the_greatest_types(rt: HostRuntime) -> Result<(), Fail> {
    let alloc = rt.alloc();
    // struct s { char a[2147483647]; char b; } x;
    let greatest = has_layout(
        alloc,
        "s:1:c.2147483647,c",
        "0",
        2147483648,
        1,
        &[0, 2147483647],
    )?;
    assert!(rt; greatest);
    // union s { char a[2147483648]; long b; } x;
    assert!(rt; has_layout(alloc, "u:1:c.2147483648,l", "0", 2147483648, 8, &[0, 0])?);
    // short x[2][536870912];
    assert!(rt; has_layout(alloc, "", "h.2.536870912", 2147483648, 2, &[])?);
    Ok(())
}

// Each holds two of the one before, so what the last consists of has 2^30 parts.
#[test]
fn structs_that_double(rt: HostRuntime) -> Result<(), Fail> {
    let tags = "s:1:c s:2:0,0 s:3:1,1 s:4:2,2 s:5:3,3 s:6:4,4 s:7:5,5 s:8:6,6 s:9:7,7 s:10:8,8 \
        s:11:9,9 s:12:10,10 s:13:11,11 s:14:12,12 s:15:13,13 s:16:14,14 s:17:15,15 \
        s:18:16,16 s:19:17,17 s:20:18,18 s:21:19,19 s:22:20,20 s:23:21,21 s:24:22,22 \
        s:25:23,23 s:26:24,24 s:27:25,25 s:28:26,26 s:29:27,27 s:30:28,28 s:31:29,29";
    assert!(rt; has_layout(rt.alloc(), tags, "30", 1073741824, 1, &[0, 536870912])?);
    Ok(())
}

#[test]
fn void_and_absent_members(rt: HostRuntime) -> Result<(), Fail> {
    let alloc = rt.alloc();
    let unit = declared(alloc, "s:1:c,i")?.expect(&rt, "ranked");
    assert!(rt;
        matches!(
            layout(alloc, &unit, &CType::Void),
            Err(LayoutFault::Incomplete(0))
        )
    );
    assert_eq!(rt; offset_of(&unit, 0, 1), Some(4));
    assert_eq!(rt; offset_of(&unit, 0, 2), None);
    assert_eq!(rt; offset_of(&unit, 1, 1), None);
    Ok(())
}

#[test]
fn types_are_copied_and_compared(rt: HostRuntime) -> Result<(), Fail> {
    let longs = type_of(rt.alloc(), "l.3")?;
    let pointer = CType::Ptr(Box::new(rt.alloc(), longs)?);
    let copy = pointer.copy()?;
    assert!(rt; copy.same(&pointer));
    assert!(rt; !copy.same(&CType::Tag(0)));
    assert!(rt; pointer.exceeds(2));
    assert!(rt; !pointer.exceeds(3));
    Ok(())
}
