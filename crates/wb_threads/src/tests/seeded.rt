//! Scripts that a seed makes, each served several times: over devices that never fail, and over devices that do.
ghost use Rattle.wb_script.specs.Valid.{IsValid};

use super::SECTORS;
use super::drawing::{Dice, drawn};
use super::serving::{Failing, Met, NEVER, NOTHING, new_log, script_of, serve, wrong_in};
use std::alloc::Global;
use std::process::Abort;
use std::sync::Wait;
use std::test::Fail;
use std::thread::Threads;
use wb_front::Open;
use wb_geometry::Geometry;
use wb_script::Script;

/// The order of each log, its slots, and its segments in memory.
const LOGS: [(u32, u32, u32); 4] = [(4, 2, 2), (4, 8, 3), (5, 4, 2), (7, 3, 4)];

/// The scripts for each log.
const SCRIPTS: u32 = 25;

/// How often each is served.
const TIMES: u32 = 3;

/// How a device fails, of which a session's opening makes so many calls: in most sessions soon behind it.
fn drawn_failing(dice: &mut Dice, opening: u32) -> Failing {
    let call = u64::from(dice.below(40).saturating_add(opening));
    let sectors = match dice.below(4) {
        0 => return NEVER,
        1 => None,
        _ => Some(u64::from(dice.below(4))),
    };
    Failing { call, sectors }
}

/// Serves a script, and answers what is wrong.
fn wrong_once<R: Threads + Wait + Sync>(
    rt: &R,
    alloc: Global,
    g: &Geometry,
    script: &Script,
    log: &[u8],
    failing: (Failing, Failing),
    met: &mut Met,
) -> Result<Option<&'static str>, Fail>
    requires { IsValid script.now }
{
    let served = serve(rt, alloc, &Open, script, log, failing)?;
    Ok(wrong_in(alloc, g, script, failing, &served, met)?)
}

/// Draws a script and serves it several times.
fn go_well<R: Threads + Wait + Abort + Sync>(
    rt: &R,
    alloc: Global,
    g: &Geometry,
    log: &[u8],
    dice: &mut Dice,
    fails: bool,
    met: &mut Met,
) -> Result<(), Fail> {
    let text = drawn(alloc, dice)?;
    let script = script_of(alloc, g, text.as_str())?;
    for _ in 0..TIMES {
        let mut failing = (NEVER, NEVER);
        if fails {
            let opening = g.slots.saturating_add(8);
            failing = (drawn_failing(dice, opening), drawn_failing(dice, 2));
        }
        let wrong = wrong_once(rt, alloc, g, &script, log, failing, met)?;
        assert!(rt;
            wrong.is_none(),
            "{wrong:?} is wrong on {g:?}, {failing:?}:\n{text}"
        );
    }
    Ok(())
}

/// Serves the scripts of a log.
fn all_go_well<R: Threads + Wait + Abort + Sync>(
    rt: &R,
    alloc: Global,
    log: (u32, u32, u32),
    dice: &mut Dice,
    fails: bool,
    met: &mut Met,
) -> Result<(), Fail> {
    let g = Geometry::new(log.0, log.1, log.2, SECTORS as u64)?;
    let log = new_log(alloc, &g)?;
    for _ in 0..SCRIPTS {
        go_well(rt, alloc, &g, log.as_slice(), dice, fails, met)?;
    }
    Ok(())
}

#[test]
fn transcripts_on_threads_are_legal(rt: HostRuntime) -> Result<(), Fail> {
    let mut met = NOTHING;
    let mut dice = Dice { state: 1 };
    for log in &LOGS {
        all_go_well(&rt, rt.alloc(), *log, &mut dice, false, &mut met)?;
    }
    assert!(rt;
        met.sessions == 4 * SCRIPTS * TIMES && met.short == 0,
        "{met:?}"
    );
    Ok(())
}

#[test]
fn a_crash_behind_faults_leaves_the_first_segments(rt: HostRuntime) -> Result<(), Fail> {
    let mut met = NOTHING;
    let mut dice = Dice { state: 2 };
    for log in &LOGS {
        all_go_well(&rt, rt.alloc(), *log, &mut dice, true, &mut met)?;
    }
    assert!(rt; met.sessions > 3 * SCRIPTS * TIMES, "{met:?}");
    assert!(rt;
        met.log > SCRIPTS && met.backing > SCRIPTS && met.short > SCRIPTS,
        "{met:?}"
    );
    Ok(())
}
