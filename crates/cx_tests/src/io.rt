use cx_base::{List, NoMemory};
use cx_io::{
    MemFiles, MemSink, ReadFault, Sink, SureFiles, SureSink, WriteFailed, put_all, read_whole,
};
use std::alloc::Global;
use std::test::Fail;

fn list_of(alloc: Global, bytes: &[u8]) -> Result<List<u8>, NoMemory> {
    let mut list = List::new(alloc);
    for b in bytes {
        list.push(*b)?;
    }
    Ok(list)
}

#[test]
fn whole_files(rt: HostRuntime) -> Result<(), Fail> {
    let alloc = rt.alloc();
    for step in [1, 3, 10, 4096] {
        let mut files = MemFiles::new(alloc, step, List::new(alloc));
        files.add("a", list_of(alloc, b"first")?)?;
        files.add("a", list_of(alloc, b"0123456789")?)?;
        let found = read_whole(alloc, &mut files, "a", 10);
        assert!(rt; matches!(&found, Ok(bytes) if bytes.as_slice() == b"0123456789".as_slice()));
        assert!(rt;
            matches!(
                read_whole(alloc, &mut files, "a", 9),
                Err(ReadFault::TooLarge(9))
            )
        );
        assert!(rt;
            matches!(
                read_whole(alloc, &mut files, "b", 9),
                Err(ReadFault::Absent)
            )
        );
    }
    let mut files = SureFiles::new(alloc, 2);
    files.add("a", list_of(alloc, b"abc")?)?;
    let found = read_whole(alloc, &mut files, "a", 3);
    assert!(rt; matches!(&found, Ok(bytes) if bytes.as_slice() == b"abc".as_slice()));
    Ok(())
}

#[test]
fn whole_texts(rt: HostRuntime) -> Result<(), Fail> {
    let alloc = rt.alloc();
    let mut out = MemSink::new(alloc, 3, List::new(alloc), 8)?;
    assert_eq!(rt; put_all(&mut out, b"01234567"), Ok(()));
    assert_eq!(rt; put_all(&mut out, b"8"), Err(WriteFailed));
    assert_eq!(rt; out.written(), b"01234567".as_slice());
    let mut out = SureSink::new(alloc, 4)?;
    assert_eq!(rt; put_all(&mut out, b"012"), Ok(()));
    assert_eq!(rt; out.room_left(), 1);
    assert_eq!(rt; put_all(&mut out, b"34"), Err(WriteFailed));
    assert_eq!(rt; out.put(b"3"), Ok(1));
    assert_eq!(rt; out.written(), b"0123".as_slice());
    Ok(())
}
