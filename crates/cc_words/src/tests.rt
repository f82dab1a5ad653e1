// Words of the command line, and what they ask for.
use crate::{Command, read_words};
use std::alloc::{AllocError, Global};
use std::test::Fail;

// The command on `x.cpp` that the words of a line ask for, with its bound and the number of its arguments.
fn asked(alloc: Global, line: &str) -> Result<Option<(Command, u32, usize)>, AllocError> {
    let mut words = Vec::new(alloc);
    for word in line.split_whitespace() {
        words.push(String::from_str(alloc, word)?)?;
    }
    let Some(request) = read_words(alloc, &words)? else {
        return Ok(None);
    };
    if request.file == "x.cpp" {
        Ok(Some((request.command, request.bound, request.arguments.len())))
    } else {
        Ok(None)
    }
}

#[test]
fn words_are_commands_or_none(rt: HostRuntime) -> Result<(), Fail> {
    let table = [
        ("run x.cpp", Some((Command::Run, 50_000_000, 0))),
        ("run x.cpp --steps 5", Some((Command::Run, 5, 0))),
        ("run --steps=5 x.cpp -- a -- b", Some((Command::Run, 5, 3))),
        (
            "run --steps 4294967295 x.cpp --",
            Some((Command::Run, 4_294_967_295, 0)),
        ),
        ("check x.cpp", Some((Command::Check, 50_000_000, 0))),
        ("build x.cpp", Some((Command::Build, 50_000_000, 0))),
        ("dump x.cpp", Some((Command::Dump, 50_000_000, 0))),
        ("verify x.cpp", Some((Command::Verify, 50_000_000, 0))),
        ("mean x.cpp --turns 0", Some((Command::Mean, 0, 0))),
        (
            "mean --turns=100 x.cpp -- a b",
            Some((Command::Mean, 100, 2)),
        ),
        ("mean x.cpp", None),
        ("mean x.cpp --steps 5", None),
        ("mean x.cpp --turns 5 --turns 5", None),
        ("run x.cpp --turns 5", None),
        ("", None),
        ("run", None),
        ("run x.cpp x.cpp", None),
        ("run -- x.cpp", None),
        ("run --help x.cpp", None),
        ("run -h x.cpp", None),
        ("run --step 5 x.cpp", None),
        ("run x.cpp --steps", None),
        ("run x.cpp --steps=", None),
        ("run x.cpp --steps +5", None),
        ("run x.cpp --steps 4294967296", None),
        ("run x.cpp --steps 00000000005", None),
        ("run x.cpp --steps 5 --steps 5", None),
        ("check x.cpp --steps 5", None),
        ("build x.cpp --", None),
        ("verify x.cpp -- a", None),
        ("verify --steps=5 x.cpp", None),
        ("verify", None),
        ("stop x.cpp", None),
    ];
    for (line, expected) in table {
        assert_eq!(rt; asked(rt.alloc(), line)?, expected, "at {line}");
    }
    Ok(())
}
