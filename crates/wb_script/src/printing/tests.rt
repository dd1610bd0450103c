//! Tests of `print`, and of each kind of line. What a transcript gave back is printed, and not what was pushed.
use super::line::push_line;
use super::{PIECE_BYTES, PrintStop, print};
use crate::{Ended, Line, Pattern, Request, Requests, Script, Shown, Stop, Taken, Transcript};
use std::alloc::{AllocError, Global};
use std::process::Abort;
use std::test::Fail;
use wb_device::MemorySink;
use wb_geometry::{Places, Which};

/// The text of a line of client 3, once a transcript kept it.
fn text_of(alloc: Global, request: &Request, line: &Line<'_>) -> Result<String, AllocError> {
    let mut transcript = Transcript::with_capacity(alloc, 1)?;
    transcript.push(alloc, line)?;
    let mut text = String::new(alloc);
    if let Some(kept) = transcript.get(0) {
        push_line(alloc, &mut text, 3, request, &kept)?;
    }
    Ok(text)
}

/// The line is printed so.
fn prints(
    rt: &impl Abort,
    alloc: Global,
    request: &Request,
    line: &Line<'_>,
    text: &str,
) -> Result<(), AllocError> {
    let found = text_of(alloc, request, line)?;
    assert_eq!(rt; found.as_str(), text);
    Ok(())
}

/// A write of the sectors 6 to 8.
fn write(alloc: Global, fua: bool) -> Result<Request, AllocError> {
    let pattern = Pattern::of(vec![in alloc; 0xaa; 1]?);
    let (sector, count) = (6, 3);
    Ok(Request::Write {
        sector,
        count,
        pattern,
        fua,
    })
}

/// The end of a flush.
fn ended(down: Option<Which>) -> Ended {
    Ended {
        through: 3,
        voids: 1,
        down,
    }
}

/// The places that a write took: place 14, and place 17 where there is a second.
fn places(second: bool) -> Places {
    let mut places = Places::new();
    places.push(14);
    if second {
        places.push(17);
    }
    places
}

#[test]
fn writes_are_printed(rt: HostRuntime) -> Result<(), Fail> {
    let request = write(rt.alloc(), false)?;
    let wrote = |places, stop| Line::Wrote {
        places: Taken::of(places),
        stop,
    };
    prints(
        &rt,
        rt.alloc(),
        &request,
        &wrote(places(true), Stop::Whole),
        "3 w 6 3 at 14 17\n",
    )?;
    prints(
        &rt,
        rt.alloc(),
        &request,
        &wrote(places(false), Stop::Ids),
        "3 w 6 3 at 14 ids\n",
    )?;
    let (none, device) = (Places::new(), Which::Backing);
    let stop = Stop::Down { device };
    prints(
        &rt,
        rt.alloc(),
        &request,
        &wrote(none, stop),
        "3 w 6 3 down backing\n",
    )?;
    Ok(())
}

#[test]
fn forced_writes_are_printed(rt: HostRuntime) -> Result<(), Fail> {
    let request = write(rt.alloc(), true)?;
    let whole = Line::Forced {
        places: Taken::of(places(true)),
        flush: Some(ended(None)),
        stop: Stop::Whole,
    };
    prints(
        &rt,
        rt.alloc(),
        &request,
        &whole,
        "3 u 6 3 at 14 17 through 3 voids 1\n",
    )?;
    let device = Which::Log;
    let stopped = Line::Forced {
        places: Taken::of(places(false)),
        flush: None,
        stop: Stop::Down { device },
    };
    prints(
        &rt,
        rt.alloc(),
        &request,
        &stopped,
        "3 u 6 3 at 14 down log\n",
    )?;
    Ok(())
}

#[test]
fn reads_are_printed(rt: HostRuntime) -> Result<(), Fail> {
    let (sector, count, point) = (63, 1, 4);
    let read = Request::Read { sector, count };
    let got = Line::Got {
        point,
        payload: Shown::of(b"\x5a\x0f\x5a\x0f"),
    };
    prints(&rt, rt.alloc(), &read, &got, "3 r 63 1 point 4 5a0f\n")?;
    let sum_read = Request::ReadSum { sector, count };
    let sum = 0x0d_1234;
    prints(
        &rt,
        rt.alloc(),
        &sum_read,
        &Line::Summed { point, sum },
        "3 x 63 1 point 4 000d1234\n",
    )?;
    let device = Which::Log;
    prints(
        &rt,
        rt.alloc(),
        &sum_read,
        &Line::Failed { device },
        "3 x 63 1 fault log\n",
    )?;
    Ok(())
}

#[test]
fn flushes_and_notes_are_printed(rt: HostRuntime) -> Result<(), Fail> {
    let flushed = Line::Flushed { ended: ended(None) };
    prints(
        &rt,
        rt.alloc(),
        &Request::Flush,
        &flushed,
        "3 f through 3 voids 1\n",
    )?;
    let deferred = Line::Deferred {
        ended: ended(Some(Which::Log)),
    };
    prints(
        &rt,
        rt.alloc(),
        &Request::Defer,
        &deferred,
        "3 q through 3 voids 1 down log\n",
    )?;
    prints(
        &rt,
        rt.alloc(),
        &Request::Tell { client: 5 },
        &Line::Told,
        "3 t 5\n",
    )?;
    prints(
        &rt,
        rt.alloc(),
        &Request::Hear { client: 0 },
        &Line::Heard,
        "3 h 0\n",
    )?;
    Ok(())
}

/// A posted flush is marked where its number, 3, is above this one.
fn marked(alloc: Global, stable: u64) -> Result<String, AllocError> {
    let mut transcript = Transcript::with_capacity(alloc, 1)?;
    transcript.push(alloc, &Line::Deferred { ended: ended(None) })?;
    transcript.mark_deferred(stable, Which::Backing);
    let mut text = String::new(alloc);
    if let Some(line) = transcript.get(0) {
        push_line(alloc, &mut text, 0, &Request::Defer, &line)?;
    }
    Ok(text)
}

#[test]
fn posted_flushes_are_marked(rt: HostRuntime) -> Result<(), Fail> {
    let done = marked(rt.alloc(), 3)?;
    assert!(rt; done.as_str() == "0 q through 3 voids 1\n");
    let cut = marked(rt.alloc(), 2)?;
    assert!(rt; cut.as_str() == "0 q through 3 voids 1 down backing\n");
    Ok(())
}

/// A script of two clients, and their answers.
#[derive(Drop)]
struct Session {
    script: Script,
    transcripts: Vec<Transcript>,
}

impl Session {
    /// The second client makes no request.
    fn of(alloc: Global, requests: Requests, answers: Transcript) -> Result<Session, AllocError> {
        let mut all = Vec::new(alloc);
        all.push(requests)?;
        all.push(Requests::new(alloc))?;
        let mut transcripts = Vec::new(alloc);
        transcripts.push(answers)?;
        transcripts.push(Transcript::with_capacity(alloc, 0)?)?;
        Ok(Session {
            script: Script::of(2, 64, all),
            transcripts,
        })
    }

    /// Prints it behind so many places.
    fn print(&self, alloc: Global, sink: &mut MemorySink, places: u64) -> Result<(), PrintStop> {
        print(alloc, sink, &self.script, &self.transcripts, places)
    }
}

/// A session with so many failed reads.
fn failures(alloc: Global, count: usize) -> Result<Session, AllocError> {
    let mut requests = Requests::new(alloc);
    let mut answers = Transcript::with_capacity(alloc, count)?;
    for _ in 0..count {
        let device = Which::Log;
        requests.push(Request::Read {
            sector: 5,
            count: 1,
        })?;
        answers.push(alloc, &Line::Failed { device })?;
    }
    Session::of(alloc, requests, answers)
}

/// What is printed of the session.
fn printed(alloc: Global, session: &Session, places: u64) -> Result<MemorySink, PrintStop> {
    let mut sink = MemorySink::new(alloc, None);
    session.print(alloc, &mut sink, places)?;
    Ok(sink)
}

#[test]
fn a_session_is_printed_line_by_line(rt: HostRuntime) -> Result<(), Fail> {
    let session = failures(rt.alloc(), 2)?;
    let sink = printed(rt.alloc(), &session, 14)?;
    assert!(rt; sink.taken() == b"0 r 5 1 fault log\n0 r 5 1 fault log\nplaces 14\n".as_slice());
    Ok(())
}

/// The text is the whole of a long session, and takes many pieces.
fn is_much_text(rt: &impl Abort, text: &[u8]) {
    assert!(rt; text.len() > 8 * PIECE_BYTES);
    assert!(rt; text.ends_with(b"0 r 5 1 fault log\nplaces 0\n"));
}

/// Where the sink fails, and how many bytes it took before: at least, and at most.
const FAILING: [(u64, usize, usize); 2] = [(0, 0, 0), (1, PIECE_BYTES, PIECE_BYTES + 64)];

/// The sink fails at this one of its calls: so many bytes it took before, which are a front of the text.
fn takes_a_front(
    rt: &impl Abort,
    alloc: Global,
    session: &Session,
    text: &[u8],
    (failing, least, most): (u64, usize, usize),
) {
    let mut sink = MemorySink::new(alloc, Some(failing));
    let stopped = session.print(alloc, &mut sink, 0);
    is_a_front(rt, sink.taken(), text, least, most);
    assert!(rt; stopped == Err(PrintStop::Fault));
}

fn is_a_front(rt: &impl Abort, taken: &[u8], text: &[u8], least: usize, most: usize) {
    assert!(rt; least <= taken.len());
    assert!(rt; taken.len() <= most);
    assert!(rt; text.starts_with(taken));
}

/// The text is written in pieces: each is a front of the whole where the sink fails.
fn is_written_in_pieces(rt: &impl Abort, alloc: Global, session: &Session) -> Result<(), Fail> {
    let sink = printed(alloc, session, 0)?;
    is_much_text(rt, sink.taken());
    for row in &FAILING {
        takes_a_front(rt, alloc, session, sink.taken(), *row);
    }
    Ok(())
}

#[test]
fn much_text_is_written_in_pieces(rt: HostRuntime) -> Result<(), Fail> {
    let session = failures(rt.alloc(), 40_000)?;
    is_written_in_pieces(&rt, rt.alloc(), &session)
}
