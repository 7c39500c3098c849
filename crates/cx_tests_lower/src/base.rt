ghost use Rattle.std.specs.Prelude.{◌≤◌, IsTrue, IsSomeAnd, slice_get, length};

use cx_base::{CInt, List, Memory, Names, NoMemory, Region, fits, place_of, wrap};
use std::alloc::Global;
use std::test::Fail;

/// A list of these bytes.
fn list_of(alloc: Global, bytes: &[u8]) -> Result<List<u8>, NoMemory> {
    let mut list = List::new(alloc);
    for b in bytes {
        list.push(*b)?;
    }
    Ok(list)
}

/// A region without arguments, of bytes that are all 0.
fn region_of(alloc: Global, base: u64, size: usize) -> Result<Region, NoMemory> {
    let mut bytes = List::new(alloc);
    for _ in 0..size {
        bytes.push(0)?;
    }
    Ok(Region {
        base,
        name: 0,
        args: List::new(alloc),
        bytes,
    })
}

/// Whether the region is there and has so many bytes.
fn has_bytes(memory: &Memory, r: u32, size: usize) -> bool
    ensures { IsTrue result → IsSomeAnd (slice_get memory.now r) (λ region. size ≤ length region.bytes) }
{
    match memory.region(r) {
        Some(region) => size <= region.bytes.len(),
        None => false,
    }
}

#[test]
fn lists(rt: HostRuntime) -> Result<(), Fail> {
    let mut list = list_of(rt.alloc(), b"abc")?;
    assert_eq!(rt; list.len(), 3);
    assert_eq!(rt; list.get(1), Some(&b'b'));
    assert_eq!(rt; list.get(3), None);
    assert_eq!(rt; list.set(1, b'x'), b'b');
    let copy = list.copy()?;
    assert_eq!(rt; list.remove(0), b'a');
    assert_eq!(rt; list.as_slice(), b"xc".as_slice());
    list.cut(1);
    assert_eq!(rt; list.as_slice(), b"x".as_slice());
    assert_eq!(rt; copy.as_slice(), b"axc".as_slice());
    let other: List<u32> = List::new(copy.alloc());
    assert_eq!(rt; other.len(), 0);
    Ok(())
}

#[test]
fn numbers(rt: HostRuntime) {
    let int = CInt {
        size: 4,
        signed: true,
    };
    let byte = CInt {
        size: 1,
        signed: false,
    };
    assert_eq!(rt; wrap(int, 2147483648), -2147483648);
    assert_eq!(rt; wrap(byte, -1), 255);
    assert!(rt; fits(int, 2147483647) && !fits(int, 2147483648));
    assert!(rt; fits(byte, 255) && !fits(byte, -1));
}

#[test]
fn places(rt: HostRuntime) {
    let text = b"int x;\n\nint y;\n";
    for (at, line, column) in [
        (0, 1, 1),
        (4, 1, 5),
        (6, 1, 7),
        (7, 2, 1),
        (8, 3, 1),
        (12, 3, 5),
        (15, 4, 1),
    ] {
        assert_eq!(rt; place_of(text, at), (line, column), "at {at}");
    }
}

#[test]
fn names(rt: HostRuntime) -> Result<(), Fail> {
    let mut names = Names::new(rt.alloc())?;
    assert_eq!(rt; names.number(b"list")?, 0);
    assert_eq!(rt; names.number(b"next")?, 1);
    assert_eq!(rt; names.number(b"list")?, 0);
    assert_eq!(rt; names.number_of(b"next"), Some(1));
    assert_eq!(rt; names.number_of(b"prev"), None);
    assert_eq!(rt; names.text(0), Some(b"list".as_slice()));
    assert_eq!(rt; names.text(2), None);
    Ok(())
}

#[test]
fn regions_are_added(rt: HostRuntime) -> Result<(), Fail> {
    let alloc = rt.alloc();
    let mut memory = Memory::new(alloc);
    memory.add_region(region_of(alloc, 4096, 0)?)?;
    for (base, size, answer) in [
        (4096, 8, "the region overlaps region 0"),
        (0, 1, "the region at 0 is out of range"),
        (
            140737488355327,
            2,
            "the region at 140737488355327 is out of range",
        ),
    ] {
        assert!(rt; memory.len() < 3);
        let fault = memory.add_region(region_of(alloc, base, size)?).err();
        let text = match fault {
            Some(fault) => format!(in alloc; "{fault}")?,
            None => String::new(alloc),
        };
        assert_eq!(rt; text.as_str(), answer);
    }
    assert!(rt; memory.len() < 3);
    memory.add_region(region_of(alloc, 4097, 1)?)?;
    assert_eq!(rt; memory.len(), 2);
    assert_eq!(rt; memory.find(4097, 1), Some(1));
    assert_eq!(rt; memory.find(4096, 1), None);
    assert_eq!(rt; memory.region(1).map(|r| r.base), Some(4097));
    Ok(())
}

#[test]
fn bytes_are_written(rt: HostRuntime) -> Result<(), Fail> {
    let alloc = rt.alloc();
    let short = CInt {
        size: 2,
        signed: true,
    };
    let byte = CInt {
        size: 1,
        signed: false,
    };
    let mut memory = Memory::new(alloc);
    memory.add_region(region_of(alloc, 4096, 4)?)?;
    assert!(rt; has_bytes(&memory, 0, 4));
    memory.write(0, 1, short, -2);
    assert!(rt; has_bytes(&memory, 0, 4));
    assert_eq!(rt; memory.read(0, 1, short), -2);
    assert_eq!(rt; memory.read(0, 1, byte), 254);
    assert_eq!(rt; memory.read(0, 3, byte), 0);
    let copy = memory.copy()?;
    assert_eq!(rt;
        copy.region(0).map(|r| r.bytes.as_slice()),
        Some([0u8, 254, 255, 0].as_slice())
    );
    Ok(())
}
