//! The workload: a script that a seed gives (docs/SCRIPT.md).
ghost use Rattle.std.specs.Prelude.{◌≡◌, ◌+◌, ◌*◌, ◌/◌, ◌%◌, ◌<◌, ◌≤◌, ◌^◌, ℕ, All, IfOk};
ghost use Rattle.wb_script.specs.Valid.{IsValid, requests_at};
ghost use Rattle.wb_script.specs.Workload.{workload, next_state, drawn_count, drawn_sector, drawn_request, drawn_requests, KeepsTo};

use crate::{Pattern, Request, Requests, Script};
use std::alloc::{AllocError, Global};

/// The clients of a workload.
const CLIENTS: u32 = 4;

/// One request of so many is a flush.
const FLUSH_PERIOD: u64 = 125;

/// The most sectors of a request.
const MOST_SECTORS: u64 = 64;

/// The workload of a seed: four clients with `count` requests each, every one in its own quarter of the first `region`
/// sectors. Each 125th request is a flush. Of the others, counted from 0 with the flushes among them, those of even number
/// are writes, and the rest are reads whose checksum is shown.
/// `count` is 1 to 25,000; `region` is a positive multiple of 32, and at most 65,536.
pub fn generate(alloc: Global, seed: u64, count: u64, region: u64) -> Result<Script, AllocError>
    requires some { 1 ≤ count }
    requires few { count ≤ 25000 }
    requires region { 32 ≤ region }
    requires small { region ≤ 65536 }
    requires quarters { region % 32 ≡ 0 }
    ensures script { IfOk result (λ script. script ≡ workload seed count region) }
    ensures valid { IfOk result IsValid }
    ensures quarters { IfOk result (λ script. (client : ℕ) → client < 4
        → All (KeepsTo (client * (region / 4)) (region / 4)) (requests_at script.requests client)) }
{
    let mut requests = Vec::with_capacity(alloc, CLIENTS as usize)?;
    for client in 0..CLIENTS {
        requests.push(requests_of(alloc, seed, count, region / 4, client)?)?;
    }
    Ok(Script::of(CLIENTS, region, requests))
}

/// The requests of a client, over a quarter of so many sectors.
fn requests_of(
    alloc: Global,
    seed: u64,
    count: u64,
    quarter: u64,
    client: u32,
) -> Result<Requests, AllocError>
    requires client { client < 4 }
    requires some { 1 ≤ quarter }
    requires few { quarter ≤ 16384 }
    requires count { count ≤ 25000 }
    ensures { IfOk result (λ requests. requests ≡ drawn_requests seed count quarter client) }
{
    let client = u64::from(client);
    let mut requests = Requests::new(alloc);
    let mut state = seed.wrapping_mul(4).wrapping_add(client);
    for index in 0..count {
        state = next_state(state);
        requests.push(request_of(alloc, quarter, client, index, state)?)?;
    }
    Ok(requests)
}

/// The state behind this one: a linear congruential generator.
fn next_state(state: u64) -> u64
    ensures { result ≡ next_state state }
{
    state
        .wrapping_mul(6_364_136_223_846_793_005)
        .wrapping_add(1_442_695_040_888_963_407)
}

/// The request of this index that a state draws.
fn request_of(
    alloc: Global,
    quarter: u64,
    client: u64,
    index: u64,
    state: u64,
) -> Result<Request, AllocError>
    requires client { client < 4 }
    requires some { 1 ≤ quarter }
    requires few { quarter ≤ 16384 }
    requires index { index < 25000 }
    ensures { IfOk result (λ request. request ≡ drawn_request quarter client index state) }
{
    let (sector, count) = drawn_range(quarter, client, state);
    if (index + 1) % FLUSH_PERIOD == 0 {
        Ok(Request::Flush)
    } else if index % 2 == 0 {
        Ok(Request::Write {
            sector,
            count,
            pattern: Pattern::of(Vec::from_slice(alloc, &state.to_le_bytes())?),
            fua: false,
        })
    } else {
        Ok(Request::ReadSum { sector, count })
    }
}

/// The sectors that a state draws in a client's quarter: the first, and how many.
fn drawn_range(quarter: u64, client: u64, state: u64) -> (u64, u64)
    requires client { client < 4 }
    requires some { 1 ≤ quarter }
    requires few { quarter ≤ 16384 }
    ensures sector { result.0 ≡ drawn_sector quarter client state }
    ensures count { result.1 ≡ drawn_count quarter state }
{
    let drawn = state >> 33;
    let count = (1 + drawn % MOST_SECTORS).min(quarter);
    let sector = client * quarter + drawn / MOST_SECTORS % (quarter - count + 1);
    (sector, count)
}

#[cfg(test)]
mod tests {
    use super::generate;
    use crate::{Request, Script};
    use std::test::Fail;

    /// How many writes, reads and flushes these are.
    fn kinds(requests: &[Request]) -> (u64, u64, u64) {
        let (mut writes, mut reads, mut flushes) = (0_u64, 0_u64, 0_u64);
        for request in requests {
            match request {
                Request::Write { .. } => writes = writes.saturating_add(1),
                Request::ReadSum { .. } => reads = reads.saturating_add(1),
                Request::Flush => flushes = flushes.saturating_add(1),
                _ => (),
            }
        }
        (writes, reads, flushes)
    }

    /// Whether each client has so many requests of each kind.
    fn each_has(script: &Script, want: (u64, u64, u64)) -> bool {
        script
            .requests()
            .iter()
            .all(|own| kinds(own.as_slice()) == want)
    }

    #[test]
    fn one_request_of_125_is_a_flush(rt: HostRuntime) -> Result<(), Fail> {
        let script = generate(rt.alloc(), 7, 5000, 32)?;
        assert!(rt; script.requests().len() == 4 && each_has(&script, (2480, 2480, 40)));
        Ok(())
    }

    /// The pattern of the first of these requests: its state is 0x154e_24a0_a456_e968.
    const FIRST_PATTERN: &[u8] = b"\x68\xe9\x56\xa4\xa0\x24\x4e\x15";

    /// Whether these begin as a separate computation of the generator has them.
    fn begin_so(requests: &[Request]) -> bool {
        match requests {
            [
                Request::Write {
                    sector: 26_345,
                    count: 17,
                    pattern,
                    fua: false,
                },
                Request::ReadSum {
                    sector: 17_409,
                    count: 54,
                },
                ..
            ] => pattern.as_slice() == FIRST_PATTERN,
            _ => false,
        }
    }

    #[test]
    fn a_seed_draws_these(rt: HostRuntime) -> Result<(), Fail> {
        let script = generate(rt.alloc(), 7, 2, 65_536)?;
        let own = script.requests().get(1);
        assert!(rt; own.is_some_and(|own| begin_so(own.as_slice())));
        Ok(())
    }
}
