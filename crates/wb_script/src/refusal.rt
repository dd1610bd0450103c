//! Why a script is refused.
use std::fmt;

/// What offends in a line of a script, in the order in which the causes of one line are named (docs/SCRIPT.md).
#[derive(Clone, Copy, Debug, PartialEq, Eq)]
pub enum Cause {
    /// The script has more than 67,108,864 bytes or more than 250,001 lines: the numbers that were read.
    Size {
        bytes: u64,
        lines: u64,
    },
    /// The first line isn't `clients K` with a number from 1 to 32, or there is no line.
    Header,
    /// The first word isn't a number below K.
    Client,
    /// There is no second word, or it is no letter of a command.
    Command,
    /// The line has another number of words than its command needs, the client counted.
    Words {
        found: u64,
        needed: u64,
    },
    /// This word, counted from 0, is the first that should be a number and isn't.
    Number {
        word: u64,
    },
    /// The count of sectors isn't from 1 to 256.
    Count {
        count: u64,
    },
    /// The sectors end behind the `sectors` of the backing device.
    Range {
        sector: u64,
        count: u64,
        sectors: u64,
    },
    /// The pattern of so many digits isn't an even number of hexadecimal digits, at least two, whose bytes repeat to just the
    /// sectors.
    Data {
        digits: u64,
    },
    /// A note for a client that isn't of a higher number, or there is none of it; or of a client that isn't of a lower
    /// number, or that leaves fewer for this one.
    Note {
        client: u64,
    },
    /// With this line so many sectors are shown by reads, which are more than 262,144.
    Reads {
        sectors: u64,
    },
}

/// The least line that offends, counted from 1, and its first cause. The whole script is line 0.
#[derive(Clone, Copy, Debug, PartialEq, Eq)]
pub struct ScriptRefused {
    /// The line.
    pub line: u64,
    /// The cause.
    pub cause: Cause,
}

/// Why there is no script.
#[derive(Clone, Copy, Debug, PartialEq, Eq)]
pub enum ParseStop {
    /// The script is refused.
    Refused(ScriptRefused),
    /// There was no memory for it.
    Memory,
}

impl fmt::Display for Cause {
    ghost use Rattle.std.specs.Prelude.{Some};
    ghost use Rattle.wb_script.specs.Output.{cause_text};

    ghost output = { λ cause. Some (cause_text cause) };

    fn fmt<W: fmt::Write>(&self, f: &mut fmt::Formatter<W>) -> fmt::Result {
        match self {
            Cause::Size { bytes, lines } => write!(f, "size {bytes} {lines}"),
            Cause::Header => write!(f, "header"),
            Cause::Client => write!(f, "client"),
            Cause::Command => write!(f, "command"),
            Cause::Words { found, needed } => write!(f, "words {found} {needed}"),
            Cause::Number { word } => write!(f, "number {word}"),
            Cause::Count { count } => write!(f, "count {count}"),
            Cause::Range {
                sector,
                count,
                sectors,
            } => write!(f, "range {sector} {count} of {sectors}"),
            Cause::Data { digits } => write!(f, "data {digits}"),
            Cause::Note { client } => write!(f, "note {client}"),
            Cause::Reads { sectors } => write!(f, "reads {sectors}"),
        }
    }
}
