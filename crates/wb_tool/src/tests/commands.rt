//! Tests of the commands over devices that don't fail: memory is there, so each is done, or refused for what it asks.
use super::case::{Case, Failing, Output, SERVE, comes};
use super::{BACKING_BYTES, empty_log, run};
use std::alloc::Global;
use std::test::Fail;
use wb_device::SteadyDevice;

const GOOD: &str = "clients 1\n0 w 0 1 aa\n0 r 0 1\n";

const BAD: &str = "clients 1\n0 w 64 1 aa\n";

// The words, the script, the status, what is printed, the lines of the transcript, the writes, and the record.
const COMMANDS: [(&str, &str, u8, &str, usize, &[(usize, u8)], u64); 9] = [
    (
        "format LOG BACKING 4 6 3",
        GOOD,
        0,
        "formatted order 4 slots 6 ram 3 backing 64 record 0\n",
        0,
        &[],
        0,
    ),
    (
        "inspect LOG BACKING",
        GOOD,
        0,
        "version 1 order 5 slots 4 ram 2 backing 64 record 0\n",
        0,
        &[],
        0,
    ),
    (
        "inspect LOG BACKING 3",
        GOOD,
        0,
        "slot 3 empty\n",
        0,
        &[],
        0,
    ),
    (
        SERVE,
        GOOD,
        0,
        "0 w 0 1 at 0\n0 r 0 1 point 1 aa\nplaces 1\n",
        2,
        &[(0, 0xaa)],
        5,
    ),
    // no session begins, and there is no transcript
    (
        "recover LOG BACKING",
        GOOD,
        0,
        "recovered 0 segments from 1 record 4 stopped id 0\n",
        0,
        &[],
        4,
    ),
    ("serve LOG", GOOD, 2, "wblog: usage\n", 0, &[], 0),
    (
        "inspect LOG BACKING 4",
        GOOD,
        2,
        "wblog: slot 4 is not below 4\n",
        0,
        &[],
        0,
    ),
    (
        SERVE,
        BAD,
        3,
        "wblog: script line 2: range 64 1 of 64\n",
        0,
        &[],
        0,
    ),
    (
        "format LOG BACKING 5 5 2",
        GOOD,
        9,
        "wblog: log device has 2176 sectors, needs 2208\n",
        0,
        &[],
        0,
    ),
];

#[test]
fn each_command_is_done_or_refused(rt: HostRuntime) -> Result<(), Fail> {
    for (words, script, status, printed, lines, writes, recorded) in &COMMANDS {
        let output = [*printed];
        let case = Case {
            words,
            script,
            order: 5,
            slots: 4,
            log: Failing::Never,
            backing: Failing::Never,
            status: *status,
            output: Output::Exactly(&output),
            lines: *lines,
            places: writes.len() as u64,
            log_calls: None,
            backing_calls: None,
            writes,
            put: None,
            recorded: Some(*recorded),
        };
        comes(&rt, rt.alloc(), &case)?;
    }
    Ok(())
}

/// Serves a script of no request, and answers whether one transcript came of it, of no line.
fn has_empty_transcript(alloc: Global) -> Result<bool, Fail> {
    let log = SteadyDevice::of(empty_log(alloc, 5, 4)?);
    let backing = SteadyDevice::of(vec![in alloc; 0; BACKING_BYTES]?);
    let (outcome, _) = run(alloc, SERVE, "clients 1\n", log, backing)?;
    Ok(outcome.transcripts.len() == 1 && outcome.transcripts.iter().all(|t| t.is_empty()))
}

#[test]
fn a_script_of_no_request_has_a_transcript(rt: HostRuntime) -> Result<(), Fail> {
    assert!(rt; has_empty_transcript(rt.alloc())?);
    Ok(())
}
