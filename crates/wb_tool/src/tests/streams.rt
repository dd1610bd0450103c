//! Tests of a source that gives its bytes in pieces, and of a sink that fails in the middle of the output.
use super::{BACKING_BYTES, empty_log, words_of};
use crate::run_single;
use std::alloc::Global;
use std::test::Fail;
use wb_device::{MemorySink, MemorySource, Source, SourceFault, SteadyDevice};

/// A source that gives at most so many bytes at a time. It tells nothing.
#[derive(Drop)]
struct Dripping<'a> {
    left: &'a [u8],
    most: usize,
}

impl Source for Dripping<'_> {
    ghost use Rattle.std.specs.Prelude.{None};

    ghost left = { λ _. None };

    ghost faults = { λ _. 0 };

    fn read(&mut self, into: &mut [u8]) -> Result<usize, SourceFault> {
        let count = self.left.len().min(self.most).min(into.len());
        let (piece, left) = self.left.split_at(count);
        into[..count].copy_from_slice(piece);
        self.left = left;
        Ok(count)
    }
}

/// How a session ended, and what its sink took.
#[derive(Drop)]
struct Ended {
    status: u8,
    places: u64,
    taken: Vec<u8>,
}

/// Serves what a source gives, to a sink of which the call of this number fails.
fn serve<S: Source>(alloc: Global, source: &mut S, failing: Option<u64>) -> Result<Ended, Fail> {
    let words = words_of(alloc, "serve LOG BACKING")?;
    let log = SteadyDevice::of(empty_log(alloc, 5, 4)?);
    let backing = SteadyDevice::of(vec![in alloc; 0x5a; BACKING_BYTES]?);
    let mut sink = MemorySink::new(alloc, failing);
    let outcome = run_single(alloc, &words, source, &mut sink, log, backing);
    Ok(Ended {
        status: outcome.status,
        places: outcome.places,
        taken: Vec::from_slice(alloc, sink.taken())?,
    })
}

const SCRIPT: &[u8] = b"clients 1\n0 w 12 1 aa\n0 r 12 1\n0 r 13 1";

const ANSWERS: &[u8] = b"0 w 12 1 at 0\n0 r 12 1 point 1 aa\n0 r 13 1 point 1 5a\nplaces 1\n";

#[test]
fn the_script_may_come_in_pieces(rt: HostRuntime) -> Result<(), Fail> {
    for most in [1, 2, 7, 1000] {
        let mut source = Dripping { left: SCRIPT, most };
        let ended = serve(rt.alloc(), &mut source, None)?;
        assert!(rt;
            ended.status == 0 && ended.taken.as_slice() == ANSWERS,
            "at {most}"
        );
    }
    Ok(())
}

/// A script of a write and 8000 reads, whose answers are more than the sink takes at once.
fn long_script(alloc: Global) -> Result<String, Fail> {
    let mut script = String::from_str(alloc, "clients 1\n0 w 7 1 aa\n")?;
    for _ in 0..8000 {
        script.push_str("0 r 7 1\n")?;
    }
    Ok(script)
}

/// Serves this script to a sink of which the call of this number fails.
fn cut_at(alloc: Global, script: &str, failing: Option<u64>) -> Result<Ended, Fail> {
    let mut source = MemorySource::of(Vec::from_slice(alloc, script.as_bytes())?, None);
    serve(alloc, &mut source, failing)
}

/// Lets each call of the sink fail in turn, and answers how many there are. What it took is always a longer front.
fn cuts(alloc: Global, script: &str, whole: &Ended) -> Result<u64, Fail> {
    let mut least = 0;
    for failing in 0..100 {
        let cut = cut_at(alloc, script, Some(failing))?;
        if cut.status == 0 && cut.taken.as_slice() == whole.taken.as_slice() {
            return Ok(failing);
        }
        if !is_cut(&cut, whole, least) {
            return Err(Fail::new(failing));
        }
        least = cut.taken.len().saturating_add(1);
    }
    Err(Fail::new("a sink that has no end"))
}

/// Whether the sink took a front of the whole output, of at least so many bytes, as the session was served.
fn is_cut(cut: &Ended, whole: &Ended, least: usize) -> bool {
    cut.status == 5
        && cut.places == 1
        && whole.taken.starts_with(&cut.taken)
        && cut.taken.len() >= least
}

#[test]
fn each_call_of_the_sink_fails_in_turn(rt: HostRuntime) -> Result<(), Fail> {
    let script = long_script(rt.alloc())?;
    let whole = cut_at(rt.alloc(), script.as_str(), None)?;
    assert!(rt; whole.status == 0 && whole.taken.len() > 128 * 1024);
    assert!(rt; cuts(rt.alloc(), script.as_str(), &whole)? >= 3);
    Ok(())
}
