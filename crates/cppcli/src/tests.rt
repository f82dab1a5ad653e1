// The answers of the program over files, source and sinks in memory.
use crate::{Status, cppcli};
use cc_base::{Files, List, MemoryFiles, MemorySink, MemorySource, NamedBytes, Script};
use std::alloc::{AllocError, Global};
use std::test::Fail;

const OVERFLOW: &str = "int main() { System::Console::WriteLine(2147483647 + 1); return 0; }";

const RECURSION: &str =
    "int f(int n) { return n == 0 ? 0 : f(n - 1); } int main() { return f(13); }";

const DEEP: &str = "int f(int n) { return n == 0 ? 0 : f(n - 1); } int main() { return f(14); }";

const ENDLESS: &str = "int main() { while (true) System::Console::Write('a'); }";

const DIVIDES: &str = "int main() { return 1 / (1 - 1); }";

const UNTYPED: &str = "int main() {\n  break; }";

// Files that hold one file, `x.cpp`, and of which the call of this number fails, the first being 1.
fn one_file(alloc: Global, source: &[u8], failing: u64) -> Result<MemoryFiles, AllocError> {
    let mut entries = List::new(alloc);
    entries.push(NamedBytes {
        name: List::from_slice(alloc, b"x.cpp")?,
        bytes: List::from_slice(alloc, source)?,
    })?;
    let script = Script::new(List::from_slice(alloc, &[failing])?);
    Ok(MemoryFiles::new(alloc, entries, script))
}

// What a call answered and wrote.
#[derive(Drop)]
struct Written {
    status: Status,
    output: MemorySink,
    notes: MemorySink,
}

// Calls the program with these words, separated by blanks, and an output that has room for so many bytes.
fn call(
    alloc: Global,
    line: &str,
    files: &mut MemoryFiles,
    room: usize,
) -> Result<Written, AllocError> {
    let mut words = Vec::new(alloc);
    for word in line.split_whitespace() {
        words.push(String::from_str(alloc, word)?)?;
    }
    let mut input = MemorySource::new(List::new(alloc), Script::new(List::new(alloc)));
    let mut output = MemorySink::new(alloc, room, Script::new(List::new(alloc)))?;
    let mut notes = MemorySink::new(alloc, 1000, Script::new(List::new(alloc)))?;
    let status = cppcli(alloc, &words, files, &mut input, &mut output, &mut notes);
    Ok(Written {
        status,
        output,
        notes,
    })
}

fn blanks(alloc: Global, length: usize) -> Result<Vec<u8>, AllocError> {
    let mut bytes = Vec::new(alloc);
    bytes.resize(length, b' ')?;
    Ok(bytes)
}

// The words, a source, and the status, output and note that they come to.
const SOURCES: [(&str, &str, u8, &str, &str); 13] = [
    ("run x.cpp", OVERFLOW, 0, "-2147483648\n", ""),
    (
        "run --steps=5 x.cpp -- a",
        OVERFLOW,
        251,
        "-2147483648\n",
        "limit: steps\n",
    ),
    ("check x.cpp", OVERFLOW, 0, "", ""),
    ("dump x.cpp", "MZ", 246, "", "x.cpp: bad image 90\n"),
    ("verify x.cpp", "MZ", 246, "", "x.cpp: bad image 90\n"),
    ("mean x.cpp --turns 0", OVERFLOW, 0, "-2147483648\n", ""),
    ("mean --turns=100 x.cpp -- a", RECURSION, 0, "", ""),
    ("mean x.cpp --turns 100", DEEP, 250, "", "limit: depth\n"),
    (
        "mean x.cpp --turns 3",
        ENDLESS,
        253,
        "aaa",
        "limit: turns\n",
    ),
    (
        "mean x.cpp --turns 0",
        DIVIDES,
        248,
        "",
        "unhandled System.DivideByZeroException: System.DivideByZeroException\n",
    ),
    (
        "check x.cpp",
        UNTYPED,
        245,
        "",
        "x.cpp:2:3: error 55 BadBreak\n",
    ),
    (
        "run x.cpp",
        "int main() { return (2 - 5) * 3; }",
        247,
        "",
        "",
    ),
    (
        "run x.cpp",
        "int main() {\n  return \x01; }",
        245,
        "",
        "x.cpp:2:10: error 1 BadByte\n",
    ),
];

#[test]
fn sources_end_or_are_refused(rt: HostRuntime) -> Result<(), Fail> {
    let alloc = rt.alloc();
    for (line, source, exit, output, note) in SOURCES {
        let mut files = one_file(alloc, source.as_bytes(), 0)?;
        let written = call(alloc, line, &mut files, 1000)?;
        assert_eq!(rt; written.status.exit(), exit, "at {source}");
        assert_eq!(rt; written.output.bytes(), output.as_bytes(), "at {source}");
        assert_eq!(rt; written.notes.bytes(), note.as_bytes(), "at {source}");
    }
    Ok(())
}

#[test]
fn words_and_faults_have_their_answers(rt: HostRuntime) -> Result<(), Fail> {
    let alloc = rt.alloc();
    let usage = "usage: cppcli COMMAND FILE\n";
    let rows = [
        ("", 0, 240, "", usage),
        ("build x.cpp -- a", 0, 240, "", usage),
        ("mean x.cpp", 0, 240, "", usage),
        ("run y.cpp", 0, 241, "", "y.cpp: absent\n"),
        ("check x.cpp", 1, 242, "", "read fault\n"),
        ("run x.cpp", 0, 243, "-2", ""),
        ("build x.cpp", 2, 243, "", ""),
    ];
    for (line, failing, exit, output, note) in rows {
        let mut files = one_file(alloc, OVERFLOW.as_bytes(), failing)?;
        let written = call(alloc, line, &mut files, 2)?;
        assert_eq!(rt; written.status.exit(), exit, "at {line}");
        assert_eq!(rt; written.output.bytes(), output.as_bytes(), "at {line}");
        assert_eq!(rt; written.notes.bytes(), note.as_bytes(), "at {line}");
    }
    Ok(())
}

#[test]
fn a_source_has_at_most_1048576_bytes(rt: HostRuntime) -> Result<(), Fail> {
    let alloc = rt.alloc();
    let rows = [
        (1048576, "x.cpp:1:1: error 26 BadMain\n"),
        (1048577, "x.cpp: too long\n"),
    ];
    for (length, note) in rows {
        let mut files = one_file(alloc, &blanks(alloc, length)?, 0)?;
        let written = call(alloc, "check x.cpp", &mut files, 0)?;
        assert_eq!(rt; written.notes.bytes(), note.as_bytes(), "at {length}");
    }
    Ok(())
}

// The image of 72 bytes of header, 28 and 8 of bodies and 396 of metadata is rounded up to 512 bytes, and headers of 512 stand before it.
#[test]
fn a_built_image_is_stored(rt: HostRuntime) -> Result<(), Fail> {
    let alloc = rt.alloc();
    let mut files = one_file(alloc, OVERFLOW.as_bytes(), 0)?;
    let written = call(alloc, "build x.cpp", &mut files, 0)?;
    assert_eq!(rt; written.status.exit(), 0);
    let mut image = Vec::new(alloc);
    assert!(rt; files.load("x.cpp.exe", 2000, &mut image).is_ok());
    assert_eq!(rt; image.len(), 1024);
    assert!(rt; image.starts_with(b"MZ"));
    let listed = call(alloc, "dump x.cpp.exe", &mut files, 5000)?;
    assert_eq!(rt; listed.status.exit(), 0);
    assert!(rt;
        listed
            .output
            .bytes()
            .starts_with(b"class <Module>\n  method main ")
    );
    Ok(())
}

// What `verify` says of the image of a source, a byte of which is changed.
fn verdict(alloc: Global, at: usize, byte: u8) -> Result<Written, AllocError> {
    let mut files = one_file(alloc, OVERFLOW.as_bytes(), 0)?;
    let _ = call(alloc, "build x.cpp", &mut files, 0)?;
    let mut image = Vec::new(alloc);
    let _ = files.load("x.cpp.exe", 2000, &mut image);
    if let Some(own) = image.get_mut(at) {
        *own = byte;
    }
    let _ = files.store("y.exe", &image);
    call(alloc, "verify y.exe", &mut files, 0)
}

// The token of the entry stands at 532 and names row 2, the method that takes the arguments; the code of `main` begins at 596 with
// `ldc.i4`, `ldc.i4.1` and, at 602, `add`.
#[test]
fn the_rule_that_an_image_breaks_is_told(rt: HostRuntime) -> Result<(), Fail> {
    let alloc = rt.alloc();
    let rows = [
        (532, 2, 0, ""),
        (532, 1, 247, "y.exe: class rule 11 at row 1\n"),
        (532, 3, 247, "y.exe: class rule 11 at row 3\n"),
        (602, 0x00, 247, "y.exe: code rule 3 at 1:13\n"),
        (602, 0xFF, 247, "y.exe: code rule 1 at 1:6\n"),
    ];
    for (at, byte, exit, note) in rows {
        let written = verdict(alloc, at, byte)?;
        assert_eq!(rt; written.status.exit(), exit, "at {at}");
        assert_eq!(rt; written.notes.bytes(), note.as_bytes(), "at {at}");
    }
    Ok(())
}
