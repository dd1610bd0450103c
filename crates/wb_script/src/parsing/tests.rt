//! Tests of `parse`: each cause of a refusal, which cause is named where a line has two, and the limits of a script. What takes
//! many bytes is shown by examples, with the program.
use super::parse;
use crate::{Cause, ParseStop, Request, Script, ScriptRefused};
use std::alloc::{AllocError, Global};
use std::process::Abort;
use std::test::Fail;
use wb_geometry::Geometry;

/// A cache with so many sectors behind it.
fn geometry(rt: &impl Abort, sectors: u64) -> Geometry {
    Geometry::new(4, 2, 2, sectors).expect(rt, "a geometry")
}

/// The script is refused at this line for this cause, for a cache with so many sectors behind it.
fn is_refused(rt: &impl Abort, alloc: Global, script: &str, sectors: u64, line: u64, cause: Cause) {
    let refused = ParseStop::Refused(ScriptRefused { line, cause });
    assert_eq!(rt;
        parse(alloc, script.as_bytes(), &geometry(rt, sectors)).err(),
        Some(refused),
        "at {script:?}"
    );
}

/// Scripts of two clients, of which the second line is refused, and why.
const BAD_LINES: [(&str, Cause); 18] = [
    ("clients 2\n\n", Cause::Client),
    ("clients 2\n2 f", Cause::Client),
    ("clients 2\n01 f", Cause::Client),
    ("clients 2\n0", Cause::Command),
    ("clients 2\n0 z", Cause::Command),
    (
        "clients 2\n0 f 1",
        Cause::Words {
            found: 3,
            needed: 2,
        },
    ),
    (
        "clients 2\n0 w 0 1",
        Cause::Words {
            found: 4,
            needed: 5,
        },
    ),
    ("clients 2\n0 w a 1 aa", Cause::Number { word: 2 }),
    ("clients 2\n0 r 0 -1", Cause::Number { word: 3 }),
    ("clients 2\n0 r 0 0", Cause::Count { count: 0 }),
    ("clients 2\n0 r 0 257", Cause::Count { count: 257 }),
    (
        "clients 2\n0 r 64 1",
        Cause::Range {
            sector: 64,
            count: 1,
            sectors: 64,
        },
    ),
    (
        "clients 2\n0 r 18446744073709551615 1",
        Cause::Range {
            sector: 18_446_744_073_709_551_615,
            count: 1,
            sectors: 64,
        },
    ),
    ("clients 2\n0 w 0 1 aab", Cause::Data { digits: 3 }),
    ("clients 2\n0 w 0 1 aabbcc", Cause::Data { digits: 6 }),
    ("clients 2\n0 w 0 1 zz", Cause::Data { digits: 2 }),
    ("clients 2\n1 t 0", Cause::Note { client: 0 }),
    ("clients 2\n1 h 0", Cause::Note { client: 0 }),
];

#[test]
fn names_the_cause(rt: HostRuntime) {
    for (script, cause) in &BAD_LINES {
        is_refused(&rt, rt.alloc(), script, 64, 2, *cause);
    }
}

/// Scripts of which a line has two causes, and the first of them.
const TWO_CAUSES: [(&str, Cause); 9] = [
    ("clients 2\n2 z", Cause::Client),
    ("clients 2\n0 z 1 2 3 4 5 6", Cause::Command),
    (
        "clients 2\n0 r a",
        Cause::Words {
            found: 3,
            needed: 4,
        },
    ),
    ("clients 2\n0 r a b", Cause::Number { word: 2 }),
    ("clients 2\n0 r a 0", Cause::Number { word: 2 }),
    ("clients 2\n0 t a", Cause::Number { word: 2 }),
    ("clients 2\n0 r 65 0", Cause::Count { count: 0 }),
    (
        "clients 2\n0 w 64 1 aab",
        Cause::Range {
            sector: 64,
            count: 1,
            sectors: 64,
        },
    ),
    ("clients 2\n0 u 0 257 aab", Cause::Count { count: 257 }),
];

#[test]
fn names_the_first_cause(rt: HostRuntime) {
    for (script, cause) in &TWO_CAUSES {
        is_refused(&rt, rt.alloc(), script, 64, 2, *cause);
    }
}

/// Scripts with the least line that is refused, and why.
const LEAST_LINES: [(&str, u64, Cause); 10] = [
    ("", 1, Cause::Header),
    ("clients 0\n2 f", 1, Cause::Header),
    ("clients 33\n", 1, Cause::Header),
    ("clients 2 \n", 1, Cause::Header),
    ("clients 2\n0 f\n0 z\n2 f\n", 3, Cause::Command),
    (
        "clients 2\n0 t 1\n1 h 0\n1 h 0\n",
        4,
        Cause::Note { client: 0 },
    ),
    ("clients 2\n1 h 0\n0 t 1 1\n", 2, Cause::Note { client: 0 }),
    ("clients 3\n2 h 0\n0 t 1\n", 2, Cause::Note { client: 0 }),
    ("clients 2\n0 t 2\n", 2, Cause::Note { client: 2 }),
    ("clients 2\n1 h 1\n", 2, Cause::Note { client: 1 }),
];

#[test]
fn names_the_least_line(rt: HostRuntime) {
    for (script, line, cause) in &LEAST_LINES {
        is_refused(&rt, rt.alloc(), script, 64, *line, *cause);
    }
}

/// A script that reads 262,144 sectors, and has these lines behind.
fn reading_most(alloc: Global, more: &str) -> Result<String, AllocError> {
    let mut text = String::new(alloc);
    text.push_str("clients 1\n")?;
    for _ in 0..1024 {
        text.push_str("0 r 0 256\n")?;
    }
    text.push_str(more)?;
    Ok(text)
}

#[test]
fn shows_no_more_sectors(rt: HostRuntime) -> Result<(), Fail> {
    let text = reading_most(rt.alloc(), "0 x 0 256\n0 r 0 1\n")?;
    let cause = Cause::Reads { sectors: 262_145 };
    is_refused(&rt, rt.alloc(), &text, 256, 1027, cause);
    Ok(())
}

/// How many requests the client of this number has.
fn count_of(script: &Script, client: usize) -> usize {
    match script.requests().get(client) {
        Some(requests) => requests.as_slice().len(),
        None => 0,
    }
}

#[test]
fn reads_as_many_sectors(rt: HostRuntime) -> Result<(), Fail> {
    let text = reading_most(rt.alloc(), "0 x 0 256\n")?;
    let script = parse(rt.alloc(), text.as_bytes(), &geometry(&rt, 256))?;
    assert!(rt; count_of(&script, 0) == 1025);
    Ok(())
}

#[test]
fn reads_as_many_clients(rt: HostRuntime) -> Result<(), Fail> {
    let text = b"clients 32\n31 h 0\n31 q\n0 t 31\n31 f";
    let script = parse(rt.alloc(), text, &geometry(&rt, 64))?;
    assert!(rt; script.requests().len() == 32 && count_of(&script, 31) == 3);
    Ok(())
}

/// Whether the request is a write with `fua` of these bytes to the last sector.
fn is_forced(request: Option<&Request>, bytes: &[u8]) -> bool {
    match request {
        Some(
            Request::Write {
                sector: 63,
                count: 1,
                pattern,
                fua: true,
            },
        ) => pattern.as_slice() == bytes,
        _ => false,
    }
}

#[test]
fn reads_a_write(rt: HostRuntime) -> Result<(), Fail> {
    let script = parse(
        rt.alloc(),
        b"clients 1\n0 u 63 1 fF00\n",
        &geometry(&rt, 64),
    )?;
    let requests = script.requests().first();
    assert!(rt; script.clients() == 1 && script.sectors() == 64);
    assert!(rt; requests.is_some_and(|own| is_forced(own.as_slice().first(), b"\xff\0")));
    Ok(())
}
