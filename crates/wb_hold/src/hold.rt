//! The gate.
ghost use Rattle.std.specs.Prelude.{◌≡◌, IfOk};

use std::alloc::{AllocError, Global};
use std::sync::atomic::{AtomicBool, AtomicU64, Ordering};
use std::thread;
use wb_front::{Gate, Point};

/// Holds a client at an arrival until another has arrived so often: the arrival `nth` of `client` at `point` is held until the
/// client `until` has arrived `until_nth` times at `until_point`. Arrivals are counted from 1.
#[derive(Clone, Copy, Debug, PartialEq, Eq)]
pub struct HoldRule {
    pub client: u32,
    pub point: Point,
    pub nth: u64,
    pub until: u32,
    pub until_point: Point,
    pub until_nth: u64,
}

impl HoldRule {
    /// Whether this arrival is held by the rule.
    fn holds(&self, client: u32, point: Point, arrival: u64) -> bool {
        self.client == client && self.point == point && self.nth == arrival
    }
}

/// How many turns a client is held at most.
const MOST_TURNS: u32 = 1 << 24;

/// The arrivals of a client, one count a point.
#[derive(Drop)]
struct Arrivals {
    claimed: AtomicU64,
    in_core: AtomicU64,
    answered: AtomicU64,
}

impl Arrivals {
    /// No arrival yet.
    fn none() -> Arrivals {
        Arrivals {
            claimed: AtomicU64::new(0),
            in_core: AtomicU64::new(0),
            answered: AtomicU64::new(0),
        }
    }

    /// The count of a point.
    fn at(&self, point: Point) -> &AtomicU64 {
        match point {
            Point::Claimed => &self.claimed,
            Point::InCore => &self.in_core,
            Point::Answered => &self.answered,
        }
    }
}

/// A gate that holds clients by rules. Each arrival is counted before its caller is held. A caller is held for `2 ^ 24` turns
/// at most, in each of which it yields; then it goes on, and the gate notes that the limit was met.
#[derive(Drop)]
pub struct Hold {
    rules: Vec<HoldRule>,
    arrivals: Vec<Arrivals>,
    met_limit: AtomicBool,
}

impl Hold {
    /// A gate with these rules, for so many clients. An `Err` is want of memory.
    pub fn of(alloc: Global, rules: Vec<HoldRule>, clients: u32) -> Result<Hold, AllocError> {
        let mut arrivals = Vec::with_capacity(alloc, clients as usize)?;
        for _ in 0..clients {
            arrivals.push(Arrivals::none())?;
        }
        Ok(Hold {
            rules,
            arrivals,
            met_limit: AtomicBool::new(false),
        })
    }

    /// Whether a client was held for as long as it may be, and then went on.
    pub fn met_limit(&self) -> bool {
        self.met_limit.load(Ordering::SeqCst)
    }

    /// How often the client has arrived at the point, `2 ^ 64 - 1` at most. A client that isn't one of the gate's never has.
    pub fn arrivals(&self, client: u32, point: Point) -> u64 {
        match self.arrivals.get(client as usize) {
            Some(arrivals) => arrivals.at(point).load(Ordering::SeqCst),
            None => 0,
        }
    }

    /// Counts an arrival. Answers how many there are now.
    fn count(&self, client: u32, point: Point) -> u64 {
        let Some(arrivals) = self.arrivals.get(client as usize) else {
            return 0;
        };
        let count = arrivals.at(point);
        let before = count.fetch_add(1, Ordering::SeqCst);
        if before == u64::MAX {
            count.store(u64::MAX, Ordering::SeqCst);
        }
        before.saturating_add(1)
    }

    /// Holds the caller until the client that the rule waits for has come, or for as long as a caller is held at most.
    fn wait_for(&self, rule: &HoldRule) {
        for _ in 0..MOST_TURNS {
            if self.arrivals(rule.until, rule.until_point) >= rule.until_nth {
                return;
            }
            thread::yield_now();
        }
        self.met_limit.store(true, Ordering::SeqCst);
    }
}

impl Gate for Hold {
    fn pass_point(&self, client: u32, point: Point) {
        let arrival = self.count(client, point);
        for rule in self.rules.iter() {
            if rule.holds(client, point, arrival) {
                self.wait_for(rule);
            }
        }
    }
}
