//! The running checksum.
ghost use Rattle.std.specs.Prelude.{◌≡◌, List, ℕ, [], ◌++◌};
ghost use Rattle.wb_sum.specs.Crc32c.{sum_of};

use crate::register::after_bytes;
use std::marker::Model;

/// The CRC-32C of the bytes so far. Contracts see it as that number.
#[derive(Drop)]
pub struct Sum {
    register: u32,
}

impl Model for Sum {
    ghost use Rattle.std.specs.Prelude.{ℕ};
    ghost use Rattle.std.specs.Int.{w32, bit_not};

    ghost Value = { ℕ };

    ghost view = { λ s. bit_not w32 s.register };
}

impl Sum {
    /// The checksum of no bytes.
    pub fn new() -> Sum
        ensures { result ≡ sum_of [] }
    {
        Sum { register: !0 }
    }

    /// Takes more bytes: from the checksum of those seen, that of all.
    pub fn update(&mut self, bytes: &[u8])
        ensures { (seen : List ℕ) → self.old ≡ sum_of seen → self.new ≡ sum_of (seen ++ bytes.now) }
    {
        self.register = after_bytes(self.register, bytes);
    }

    /// The checksum of the bytes so far.
    pub fn finish(&self) -> u32
        ensures { result ≡ self.now }
    {
        !self.register
    }
}

#[cfg(test)]
mod tests {
    use super::*;

    fn sum_of_pieces(first: &[u8], second: &[u8]) -> u32 {
        let mut sum = Sum::new();
        sum.update(first);
        sum.update(second);
        sum.finish()
    }

    // the check value of the standard, the examples of RFC 3720 and no bytes
    #[test]
    fn sums_of_known_texts(rt: HostRuntime) {
        assert_eq!(rt; sum_of_pieces(b"123456789", b""), 0xe306_9283);
        assert_eq!(rt; sum_of_pieces(b"1234", b"56789"), 0xe306_9283);
        assert_eq!(rt; sum_of_pieces(&[0; 32], b""), 0x8a91_36aa);
        assert_eq!(rt; sum_of_pieces(&[0xff; 32], b""), 0x62a8_ab43);
        assert_eq!(rt; sum_of_pieces(b"", b""), 0);
    }

    // several turns, and a cut inside one
    #[test]
    fn sums_of_long_texts(rt: HostRuntime) {
        assert_eq!(rt; sum_of_pieces(&[0; 4096], b""), 0x98f9_4189);
        assert_eq!(rt; sum_of_pieces(&[0; 77], &[0; 4019]), 0x98f9_4189);
    }
}
