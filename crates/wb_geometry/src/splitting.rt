//! A request is split into parts, one for each block that it touches.
ghost use Rattle.std.specs.Prelude.{◌≡◌, ◌+◌, ◌≤◌, ◌^◌};
ghost use Rattle.std.specs.Iterator.{YieldsFirst, item_count};
ghost use Rattle.wb_geometry.specs.Requests.{parts};

use crate::request::Part;
use std::marker::Model;

/// The sectors of a block.
const BLOCK_SECTORS: u64 = 8;

/// The parts of a request that are still to come, by rising block, as `split` gives them.
#[derive(Debug, Drop)]
pub struct Parts {
    // The first sector of those parts, and the sector behind the last.
    next: u64,
    end: u64,
}

impl Model for Parts {
    ghost use Rattle.std.specs.Prelude.{◌-◌, ◌≤◌, ◌^◌, List};
    ghost use Rattle.wb_geometry.specs.Requests.{parts};
    ghost use Rattle.wb_geometry.specs.declared.request.Part.{Part};

    ghost Value = { List Part };

    ghost view = { λ p. parts p.next (p.end - p.next) };

    ghost invariant = { λ p. (p.next ≤ p.end) × (p.end ≤ 2 ^ 40) };
}

/// The parts of a request of `count` sectors from `sector` on: one for each block of eight sectors that it touches, by rising
/// block. A request of no sector has no part. The sectors are below 2^40.
pub fn split(sector: u64, count: u64) -> Parts
    requires { sector + count ≤ 2 ^ 40 }
    ensures { result ≡ parts sector count }
{
    Parts {
        next: sector,
        end: sector + count,
    }
}

impl Iterator for Parts {
    type Item = Part;

    ghost next_gives = { YieldsFirst (λ s. s) };

    ghost remaining = { item_count (λ s. s) };

    /// The next part, or `None` where none is left. It takes no memory.
    fn next(&mut self) -> Option<Part> {
        if self.next == self.end {
            return None;
        }
        let from = self.next % BLOCK_SECTORS;
        let count = (BLOCK_SECTORS - from).min(self.end - self.next);
        let part = Part {
            block: self.next / BLOCK_SECTORS,
            from: from as u8,
            count: count as u8,
        };
        self.next += count;
        Some(part)
    }
}

#[cfg(test)]
mod tests {
    use super::*;

    #[test]
    fn a_request_is_split_at_its_blocks(rt: HostRuntime) {
        let rows = [
            Some((1, 5, 3)),
            Some((2, 0, 8)),
            Some((3, 0, 8)),
            Some((4, 0, 1)),
            None,
            None,
        ];
        let mut parts = split(13, 20);
        for row in &rows {
            let found = parts.next();
            let found = found.map(|part| (part.block, part.from, part.count));
            assert!(rt; found == *row);
        }
    }

    #[test]
    fn a_request_has_at_most_33_parts(rt: HostRuntime) {
        let counts = [
            split(7, 256).count(),
            split(8, 256).count(),
            split(5, 0).count(),
        ];
        assert!(rt; counts == [33, 32, 0]);
    }
}
