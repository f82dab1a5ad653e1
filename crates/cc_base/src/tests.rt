// Each kind in memory answers as its bytes, its room and its list of failing calls say; each kind on the host is called once.
use crate::{
    Failed, Files, HostFiles, HostSink, HostSource, List, LoadFault, MemoryFiles, MemorySink,
    MemorySource, NamedBytes, Script, Sink, Source, StoreFault, SwappedFiles, write_whole,
};
use std::alloc::{AllocError, Global};
use std::test::Fail;

fn script(alloc: Global, failing: &[u64]) -> Result<Script, AllocError> {
    Ok(Script::new(List::from_slice(alloc, failing)?))
}

fn one_file(alloc: Global, name: &str, bytes: &[u8]) -> Result<List<NamedBytes>, AllocError> {
    let mut entries = List::new(alloc);
    entries.push(NamedBytes {
        name: List::from_slice(alloc, name.as_bytes())?,
        bytes: List::from_slice(alloc, bytes)?,
    })?;
    Ok(entries)
}

#[test]
fn files_answer_by_name_limit_and_failing_calls(rt: HostRuntime) -> Result<(), Fail> {
    let alloc = rt.alloc();
    let mut files = MemoryFiles::new(
        alloc,
        one_file(alloc, "x.cpp", b"abc")?,
        script(alloc, &[4, 7])?,
    );
    let mut bytes = Vec::new(alloc);
    assert_eq!(rt; files.load("x.cpp", 3, &mut bytes), Ok(()));
    assert_eq!(rt; bytes.as_slice(), b"abc".as_slice());
    assert_eq!(rt; files.load("x.cpp", 1, &mut bytes), Err(LoadFault::TooLong));
    assert_eq!(rt; bytes.as_slice(), b"ab".as_slice());
    assert_eq!(rt; files.load("y.cpp", 3, &mut bytes), Err(LoadFault::Absent));
    assert_eq!(rt; files.load("x.cpp", 3, &mut bytes), Err(LoadFault::Failed));
    assert_eq!(rt; files.store("x.cpp", b"d"), Ok(()));
    assert_eq!(rt; files.load("x.cpp", 3, &mut bytes), Ok(()));
    assert_eq!(rt; bytes.as_slice(), b"d".as_slice());
    assert_eq!(rt; files.store("x.cpp", b"e"), Err(StoreFault::Failed));
    let mut files = SwappedFiles::new(files, one_file(alloc, "x.cpp", b"other")?);
    assert_eq!(rt; files.store("x.cpp", b"f"), Ok(()));
    assert_eq!(rt; files.load("x.cpp", 5, &mut bytes), Ok(()));
    assert_eq!(rt; bytes.as_slice(), b"other".as_slice());
    let mut files = HostFiles::new(&rt);
    assert_eq!(rt;
        files.load("no such file", 5, &mut bytes),
        Err(LoadFault::Absent)
    );
    Ok(())
}

#[test]
fn streams_answer_by_bytes_room_and_failing_calls(rt: HostRuntime) -> Result<(), Fail> {
    let alloc = rt.alloc();
    let mut source = MemorySource::new(List::from_slice(alloc, b"abc")?, script(alloc, &[2])?);
    let mut piece = [0; 2];
    assert_eq!(rt; source.take(&mut piece), Ok(2));
    assert_eq!(rt; piece, *b"ab");
    assert_eq!(rt; source.take(&mut piece), Err(Failed));
    assert_eq!(rt; source.take(&mut piece), Ok(1));
    assert_eq!(rt; piece[0], b'c');
    assert_eq!(rt; source.take(&mut piece), Ok(0));
    let mut sink = MemorySink::new(alloc, 3, script(alloc, &[1])?)?;
    assert_eq!(rt; sink.give(b"ab"), Err(Failed));
    assert_eq!(rt; write_whole(&mut sink, b"ab"), Ok(()));
    assert_eq!(rt; write_whole(&mut sink, b"cde"), Err(1));
    assert_eq!(rt; sink.bytes(), b"abc".as_slice());
    let mut source = HostSource::new(b"a".as_slice());
    assert_eq!(rt; source.take(&mut piece), Ok(1));
    assert_eq!(rt; piece[0], b'a');
    let mut sink = HostSink::new(Vec::new(alloc));
    assert_eq!(rt; write_whole(&mut sink, b"ab"), Ok(()));
    Ok(())
}
