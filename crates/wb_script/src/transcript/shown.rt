//! The bytes that a read showed.
ghost use Rattle.std.specs.Prelude.{◌≡◌, ◌<◌, ◌≤◌, length};
ghost use Rattle.wb_script.specs.Patterns.{repeats, repeated, IsShortest, shortest_pattern};

use std::marker::Model;

/// The bytes that a read showed, as their shortest pattern and their number.
#[derive(Debug, Drop)]
pub struct Shown<'a> {
    pattern: &'a [u8],
    count: usize,
}

impl<'a> Model for Shown<'a> {
    ghost use Rattle.std.specs.Prelude.{ℕ, List};
    ghost use Rattle.wb_script.specs.Patterns.{repeated, IsShortest};

    ghost Value = { List ℕ };

    ghost view = { λ s. repeated s.pattern.now s.count };

    ghost invariant = { λ s. IsShortest s.pattern.now s.count };
}

impl<'a> Shown<'a> {
    /// These bytes, at least one.
    pub fn of(bytes: &'a [u8]) -> Shown<'a>
        requires { 0 < length bytes.now }
        ensures { result ≡ bytes.now }
    {
        Shown {
            pattern: shortest(bytes),
            count: bytes.len(),
        }
    }

    /// The bytes that this pattern, the shortest of them, makes by being repeated to so many.
    pub(super) fn repeated(pattern: &'a [u8], count: usize) -> Shown<'a>
        requires { IsShortest pattern.now count }
        ensures { result ≡ repeated pattern.now count }
    {
        Shown { pattern, count }
    }

    /// The number of bytes.
    pub fn len(&self) -> usize
        ensures { result ≡ length self.now }
    {
        self.count
    }

    /// The shortest pattern that, repeated, is the bytes.
    pub fn pattern(&self) -> &'a [u8]
        ensures shortest { result.now ≡ shortest_pattern self.now }
        ensures fills { repeated result.now (length self.now) ≡ self.now }
    {
        self.pattern
    }
}

/// The shortest front that, repeated, is the bytes.
fn shortest(bytes: &[u8]) -> &[u8]
    requires { 0 < length bytes.now }
    ensures { result.now ≡ shortest_pattern bytes.now }
{
    for n in 1..bytes.len() {
        if repeats_front(bytes, n) {
            return &bytes[..n];
        }
    }
    bytes
}

/// Whether the bytes are their first `n`, repeated: then each byte behind those is the same as the byte `n` before it.
fn repeats_front(bytes: &[u8], n: usize) -> bool
    requires some { 0 < n }
    requires within { n ≤ length bytes.now }
    ensures { result ≡ repeats bytes.now n }
{
    bytes.len() % n == 0 && bytes[n..] == bytes[..bytes.len() - n]
}

#[cfg(test)]
mod tests {
    use super::*;
    use std::alloc::{AllocError, Global};
    use std::process::Abort;
    use std::test::Fail;

    /// Bytes, the pattern of them, and how often the bytes are repeated.
    const PATTERNS: [(&[u8], &[u8], usize); 6] = [
        (b"\xaa", b"\xaa", 512),
        (b"\xaa\xbb", b"\xaa\xbb", 256),
        (b"abab", b"ab", 128),
        (b"a", b"a", 1),
        (b"aaab", b"aaab", 1),
        // the same 3 bytes further on, and no number of times 3 bytes
        (b"abaab", b"abaab", 1),
    ];

    /// Of these bytes this is the pattern.
    fn has_pattern(rt: &impl Abort, bytes: &[u8], pattern: &[u8]) {
        assert!(rt; !bytes.is_empty());
        let shown = Shown::of(bytes);
        assert!(rt; shown.pattern() == pattern);
    }

    fn repeated(alloc: Global, bytes: &[u8], count: usize) -> Result<Vec<u8>, AllocError> {
        let mut all = Vec::new(alloc);
        for _ in 0..count {
            all.extend_from_slice(bytes)?;
        }
        Ok(all)
    }

    #[test]
    fn the_shortest_pattern_is_shown(rt: HostRuntime) -> Result<(), Fail> {
        for (bytes, pattern, count) in &PATTERNS {
            let all = repeated(rt.alloc(), bytes, *count)?;
            has_pattern(&rt, &all, pattern);
        }
        Ok(())
    }

    #[test]
    fn bytes_that_do_not_repeat_are_shown_whole(rt: HostRuntime) {
        let mut three = [0xaa; 1536];
        three[512..1024].fill(0xbb);
        three[1024..].fill(0xcc);
        has_pattern(&rt, &three, &three);
        let mut last = [0xaa; 512];
        last[511] = 0xbb;
        has_pattern(&rt, &last, &last);
    }
}
