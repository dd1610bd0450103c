//! Scripts of which each text that they may print is known. Some clients are held at their points until others have come to
//! theirs, so that no body passes that serves one after another, or holds a lock for the length of a call.
ghost use Rattle.wb_script.specs.Valid.{IsValid};

use super::SECTORS;
use super::serving::{Devices, NEVER, NOTHING, new_log, script_of, serve, wrong_in};
use std::alloc::{AllocError, Global};
use std::sync::Wait;
use std::test::Fail;
use std::thread::Threads;
use wb_device::MemorySink;
use wb_front::Point;
use wb_geometry::Geometry;
use wb_hold::{Hold, HoldRule};
use wb_script::{Script, print};

/// A script, the texts that it may print, how its first two clients are held, and how often each of them then has been answered
/// and has read. A client is held at its first arrival at a point until the other has been answered so often.
#[derive(Clone, Copy)]
struct Row<'a> {
    script: &'a str,
    texts: &'a [&'a str],
    holds: &'a [(u32, Point, u64)],
    answered: (u64, u64),
    read: (u64, u64),
}

/// The gate of a row, for 32 clients at most.
fn gate_of(alloc: Global, row: &Row<'_>) -> Result<Hold, AllocError> {
    let mut rules = Vec::new(alloc);
    for (client, point, until_nth) in row.holds {
        rules.push(HoldRule {
            client: *client,
            point: *point,
            nth: 1,
            until: 1u32.saturating_sub(*client),
            until_point: Point::Answered,
            until_nth: *until_nth,
        })?;
    }
    Hold::of(alloc, rules, 32)
}

/// Whether no client was held for as long as it may be, and each came to its points as often as the row says.
fn was_passed(hold: &Hold, row: &Row<'_>) -> bool {
    let at = |point| (hold.arrivals(0, point), hold.arrivals(1, point));
    !hold.met_limit() && at(Point::Answered) == row.answered && at(Point::InCore) == row.read
}

/// Whether a session prints one of these texts.
fn prints_one_of(alloc: Global, script: &Script, served: &Devices, texts: &[&str]) -> bool {
    let Ok(session) = &served.answer else {
        return false;
    };
    let mut sink = MemorySink::new(alloc, None);
    let transcripts = session.transcripts.as_slice();
    print(alloc, &mut sink, script, transcripts, session.places).is_ok()
        && texts.iter().any(|text| sink.taken() == text.as_bytes())
}

/// Serves the script of a row through its gate. Answers what is wrong then.
fn wrong_in_row<R: Threads + Wait + Sync>(
    rt: &R,
    alloc: Global,
    g: &Geometry,
    row: &Row<'_>,
    script: &Script,
    log: &[u8],
) -> Result<Option<&'static str>, AllocError>
    requires { IsValid script.now }
{
    let hold = gate_of(alloc, row)?;
    let served = serve(rt, alloc, &hold, script, log, (NEVER, NEVER))?;
    if !was_passed(&hold, row) {
        return Ok(Some("how the clients were held"));
    }
    if !prints_one_of(alloc, script, &served, row.texts) {
        return Ok(Some("the text"));
    }
    wrong_in(alloc, g, script, (NEVER, NEVER), &served, &mut NOTHING)
}

/// The same of the row's own script and a new log, of four slots of three places each.
fn is_wrong<R: Threads + Wait + Sync>(
    rt: &R,
    alloc: Global,
    row: &Row<'_>,
) -> Result<Option<&'static str>, Fail> {
    let g = Geometry::new(5, 4, 2, SECTORS as u64)?;
    let log = new_log(alloc, &g)?;
    let script = script_of(alloc, &g, row.script)?;
    Ok(wrong_in_row(rt, alloc, &g, row, &script, log.as_slice())?)
}

/// Rows of two clients.
const ROWS: [Row<'static>; 4] = [
    // The second client waits for the first, so that each answer is determined.
    Row {
        script: "clients 2\n0 w 0 1 aa\n0 t 1\n1 h 0\n1 r 0 1\n1 u 8 1 bb\n",
        texts: &[
            "0 w 0 1 at 0\n0 t 1\n1 h 0\n1 r 0 1 point 1 aa\n1 u 8 1 at 1 through 3 voids 1\nplaces 3\n",
        ],
        holds: &[],
        answered: (2, 3),
        read: (0, 1),
    },
    // Whoever writes last is read.
    Row {
        script: "clients 2\n0 w 0 1 aa\n0 t 1\n1 w 0 1 bb\n1 h 0\n1 r 0 1\n",
        texts: &[
            "0 w 0 1 at 0\n0 t 1\n1 w 0 1 at 1\n1 h 0\n1 r 0 1 point 2 bb\nplaces 2\n",
            "0 w 0 1 at 1\n0 t 1\n1 w 0 1 at 0\n1 h 0\n1 r 0 1 point 2 aa\nplaces 2\n",
        ],
        holds: &[],
        answered: (2, 3),
        read: (0, 1),
    },
    // Each client is held at its first answer until the other's first answer.
    Row {
        script: "clients 2\n0 w 0 1 aa\n1 w 8 1 bb\n",
        texts: &[
            "0 w 0 1 at 0\n1 w 8 1 at 1\nplaces 2\n",
            "0 w 0 1 at 1\n1 w 8 1 at 0\nplaces 2\n",
        ],
        holds: &[(0, Point::Answered, 1), (1, Point::Answered, 1)],
        answered: (1, 1),
        read: (0, 0),
    },
    // Each client is held in a read, with the lock, until the other's write is answered. Whether a read's point covers the
    // other's write isn't determined; the first sector shows what it held before.
    Row {
        script: "clients 2\n0 r 0 1\n0 t 1\n0 w 0 1 aa\n1 w 8 1 bb\n1 h 0\n1 r 8 1\n",
        texts: &[
            "0 r 0 1 point 0 8000\n0 t 1\n0 w 0 1 at 1\n1 w 8 1 at 0\n1 h 0\n1 r 8 1 point 1 bb\nplaces 2\n",
            "0 r 0 1 point 0 8000\n0 t 1\n0 w 0 1 at 1\n1 w 8 1 at 0\n1 h 0\n1 r 8 1 point 2 bb\nplaces 2\n",
            "0 r 0 1 point 1 8000\n0 t 1\n0 w 0 1 at 1\n1 w 8 1 at 0\n1 h 0\n1 r 8 1 point 1 bb\nplaces 2\n",
            "0 r 0 1 point 1 8000\n0 t 1\n0 w 0 1 at 1\n1 w 8 1 at 0\n1 h 0\n1 r 8 1 point 2 bb\nplaces 2\n",
        ],
        holds: &[(0, Point::InCore, 1), (1, Point::InCore, 3)],
        answered: (3, 3),
        read: (1, 1),
    },
];

#[test]
fn rows_print_what_they_may(rt: HostRuntime) -> Result<(), Fail> {
    for row in &ROWS {
        let wrong = is_wrong(&rt, rt.alloc(), row)?;
        assert!(rt; wrong.is_none(), "{wrong:?} is wrong in {}", row.script);
    }
    Ok(())
}

/// A script of 32 clients, and what it prints. Each but the last writes a sector and leaves a note for the next, which hears it
/// before all else. The last reads what the first wrote.
fn chain(alloc: Global) -> Result<(String, String), AllocError> {
    let (mut script, mut text) = (String::new(alloc), String::new(alloc));
    script.push_str("clients 32\n")?;
    for client in 0..31u32 {
        let next = client + 1;
        write!(
            script,
            "{client} w {client} 1 {next:02x}\n{client} t {next}\n{next} h {client}\n"
        )?;
        write!(
            text,
            "{client} w {client} 1 at {client}\n{client} t {next}\n{next} h {client}\n"
        )?;
    }
    script.push_str("31 r 0 1\n31 f\n")?;
    text.push_str("31 r 0 1 point 31 01\n31 f through 33 voids 2\nplaces 33\n")?;
    Ok((script, text))
}

#[test]
fn thirty_two_clients_are_served(rt: HostRuntime) -> Result<(), Fail> {
    let (script, text) = chain(rt.alloc())?;
    let row = Row {
        script: script.as_str(),
        texts: &[text.as_str()],
        holds: &[],
        answered: (2, 3),
        read: (0, 0),
    };
    let wrong = is_wrong(&rt, rt.alloc(), &row)?;
    assert!(rt; wrong.is_none(), "{wrong:?}");
    Ok(())
}
