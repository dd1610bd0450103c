//! CRC-32C, the checksum of Castagnoli's polynomial 0x1EDC6F41.
//!
//! `specs/Crc32c.antt` has the definition, as a long division over lists of bits.
#![tactic(auto)]

mod law;
mod register;
mod sum;
mod tables;

pub use law::divides;
pub use sum::Sum;
