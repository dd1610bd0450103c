//! Clients are held by rules.
use crate::{Hold, HoldRule};
use std::alloc::{AllocError, Global};
use wb_front::{Gate, Point};

/// Client 0 is held at its first answer until client 1 has answered once.
fn first_waits(alloc: Global) -> Result<Hold, AllocError> {
    let mut rules = Vec::new(alloc);
    rules.push(HoldRule {
        client: 0,
        point: Point::Answered,
        nth: 1,
        until: 1,
        until_point: Point::Answered,
        until_nth: 1,
    })?;
    Hold::of(alloc, rules, 2)
}

/// Client 0 answers alone. Answers whether the limit was met, and its arrivals and those of client 1.
fn answers_alone(alloc: Global) -> Result<(bool, u64, u64), AllocError> {
    let hold = first_waits(alloc)?;
    hold.pass_point(0, Point::Answered);
    let arrivals = hold.arrivals(0, Point::Answered);
    Ok((
        hold.met_limit(),
        arrivals,
        hold.arrivals(1, Point::Answered),
    ))
}

/// Client 1 answers first, and client 0 comes twice then and to another point. Answers the same.
fn answers_later(alloc: Global) -> Result<(bool, u64, u64), AllocError> {
    let hold = first_waits(alloc)?;
    hold.pass_point(1, Point::Answered);
    hold.pass_point(0, Point::Answered);
    hold.pass_point(0, Point::Claimed);
    hold.pass_point(0, Point::Answered);
    let arrivals = hold.arrivals(0, Point::Answered);
    Ok((
        hold.met_limit(),
        arrivals,
        hold.arrivals(1, Point::Answered),
    ))
}

#[test]
fn who_waits_in_vain_meets_the_limit(rt: HostRuntime) -> Result<(), AllocError> {
    assert!(rt; answers_alone(rt.alloc())? == (true, 1, 0));
    Ok(())
}

#[test]
fn who_comes_later_is_not_held(rt: HostRuntime) -> Result<(), AllocError> {
    assert!(rt; answers_later(rt.alloc())? == (false, 2, 1));
    Ok(())
}
