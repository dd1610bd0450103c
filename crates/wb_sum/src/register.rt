//! The register of the division, which is the checksum of the bytes so far with its bits inverted.
ghost use Rattle.std.specs.Prelude.{◌≡◌, ℕ, ◌+◌, ◌*◌, ◌<◌, ◌≤◌, [], ◌∷◌, length, IsTrue};
ghost use Rattle.wb_sum.specs.Crc32c.{message, number};
ghost use Rattle.wb_sum.specs.Register.{are_tables, reduce, run, state};

use crate::tables::{FAR, NEAR};

/// The register after these bytes: 32 bytes a turn by four words side by side, and the last bytes one by one.
pub fn after_bytes(start: u32, bytes: &[u8]) -> u32
    ensures { result ≡ run start bytes.now }
{
    if bytes.len() < 32 {
        return after_few(start, bytes);
    }
    let words = words_of(bytes);
    let mut first = words.first ^ u64::from(start);
    let mut second = words.second;
    let mut third = words.third;
    let mut fourth = words.fourth;
    let mut rest = words.rest;
    while rest.len() >= 32 {
        let next = words_of(rest);
        first = next.first ^ u64::from(after_turn(first));
        second = next.second ^ u64::from(after_turn(second));
        third = next.third ^ u64::from(after_turn(third));
        fourth = next.fourth ^ u64::from(after_turn(fourth));
        rest = next.rest;
    }
    after_few(after_four(first, second, third, fourth), rest)
}

/// The register after these bytes, one by one.
fn after_few(start: u32, bytes: &[u8]) -> u32
    ensures { result ≡ run start bytes.now }
{
    let mut register = start;
    for byte in bytes {
        register = after_byte(register ^ u32::from(*byte));
    }
    register
}

/// Four words of a text and the bytes behind them.
#[derive(Clone, Copy)]
struct Words<'a> {
    first: u64,
    second: u64,
    third: u64,
    fourth: u64,
    rest: &'a [u8],
}

/// The first four words of a text.
fn words_of(bytes: &[u8]) -> Words<'_>
    requires { 32 ≤ length bytes.now }
    ensures words { number (message bytes.now) ≡ state (result.first ∷ result.second ∷ result.third ∷ result.fourth ∷ []) (number (message result.rest.now)) }
    ensures rest { length result.rest.now + 32 ≡ length bytes.now }
{
    let (first, behind_first) = first_word(bytes);
    let (second, behind_second) = first_word(behind_first);
    let (third, behind_third) = first_word(behind_second);
    let (fourth, rest) = first_word(behind_third);
    Words {
        first,
        second,
        third,
        fourth,
        rest,
    }
}

/// The first word of a text, and the bytes behind it.
fn first_word(bytes: &[u8]) -> (u64, &[u8])
    requires { 8 ≤ length bytes.now }
    ensures word { number (message bytes.now) ≡ state (result.0 ∷ []) (number (message result.1.now)) }
    ensures rest { length result.1.now + 8 ≡ length bytes.now }
{
    let (word, rest) = bytes.split_first_chunk::<8>().unwrap();
    (word_of(word), rest)
}

/// The number that eight bytes spell, the lowest first.
fn word_of(bytes: &[u8; 8]) -> u64
    ensures { result ≡ number (message bytes.now) }
{
    u64::from_le_bytes(*bytes)
}

/// What the division leaves of four words, each with those after it behind it.
fn after_four(first: u64, second: u64, third: u64, fourth: u64) -> u32
    ensures { result ≡ reduce 256 (state (first ∷ second ∷ third ∷ fourth ∷ []) 0) }
{
    let one = after_word(first);
    let two = after_word(second ^ u64::from(one));
    let three = after_word(third ^ u64::from(two));
    after_word(fourth ^ u64::from(three))
}

/// What eight steps of the division leave.
fn after_byte(register: u32) -> u32
    ensures { result ≡ reduce 8 register }
{
    let low = look_up(&NEAR, 0, u64::from(register % 256));
    low ^ (register / 256)
}

/// What the division leaves of a word with nothing behind it.
fn after_word(word: u64) -> u32
    ensures { result ≡ reduce 64 word }
{
    look_up_all(&NEAR, word)
}

/// What the division leaves of a word with 24 bytes behind it.
fn after_turn(word: u64) -> u32
    ensures { result ≡ reduce 256 word }
{
    look_up_all(&FAR, word)
}

/// What the division leaves of the eight bytes of a word, by tables.
fn look_up_all(tables: &[[u32; 256]; 8], word: u64) -> u32
    ensures { (behind : ℕ) → IsTrue (are_tables behind tables.now) → result ≡ reduce (8 * (behind + 8)) word }
{
    let a = look_up(tables, 7, word % 256);
    let b = look_up(tables, 6, (word >> 8) % 256);
    let c = look_up(tables, 5, (word >> 16) % 256);
    let d = look_up(tables, 4, (word >> 24) % 256);
    let e = look_up(tables, 3, (word >> 32) % 256);
    let f = look_up(tables, 2, (word >> 40) % 256);
    let g = look_up(tables, 1, (word >> 48) % 256);
    let h = look_up(tables, 0, word >> 56);
    a ^ b ^ c ^ d ^ e ^ f ^ g ^ h
}

/// What the division leaves of one byte, by its row of the tables.
fn look_up(tables: &[[u32; 256]; 8], row: usize, byte: u64) -> u32
    requires row { row < 8 }
    requires byte { byte < 256 }
    ensures { (behind : ℕ) → IsTrue (are_tables behind tables.now) → result ≡ reduce (8 * (behind + row + 1)) byte }
{
    tables[row][byte as usize]
}
