//! What the words of the command line ask.
ghost use Rattle.std.specs.Prelude.{◌≡◌, ◌<◌, ◌≤◌, ◌^◌, ℕ, MatchOption, map};
ghost use Rattle.std.specs.Fmt.{decimal};
ghost use Rattle.std.specs.String.{string_bytes};
ghost use Rattle.wb_tool.specs.declared.command.Command.{Command};
ghost use Rattle.wb_tool.specs.declared.command.Numbers.{Numbers};
ghost use Rattle.wb_tool.specs.declared.command.WorkloadNumbers.{WorkloadNumbers};
ghost use Rattle.wb_tool.specs.Commands.{IsForm, SpellNumbers, SpellWorkload};

use wb_geometry::Geometry;
use wb_script::number;

/// The numbers of a log that is to be made.
#[derive(Clone, Copy)]
pub struct Numbers {
    pub order: u32,
    pub slots: u32,
    pub ram: u32,
}

/// The seed of a workload, and how many requests each of its clients has.
#[derive(Clone, Copy)]
pub struct WorkloadNumbers {
    pub seed: u64,
    pub count: u64,
}

/// A command. The names of the two devices are for the program.
#[derive(Clone, Copy)]
pub enum Command {
    /// Makes an empty log.
    Format(Numbers),
    /// Serves a script.
    Serve,
    /// Puts what the log has to the backing device.
    Recover,
    /// Tells the superblock.
    Inspect,
    /// Tells what is in a slot, counted from 0.
    InspectSlot(u64),
    /// Serves the workload of a seed.
    Workload(WorkloadNumbers),
}

/// The sectors of the smallest backing device.
const FEWEST_SECTORS: u64 = 8;

/// The most requests of a client of a workload.
const MOST_REQUESTS: u64 = 25_000;

/// The command that the words behind the program's name ask for.
pub fn command_of(words: &[String]) -> Option<Command>
    ensures { MatchOption result ((command : Command) → IsForm command (map string_bytes words.now) → ⊥) (λ command. IsForm command (map string_bytes words.now)) }
{
    match words.len() {
        3 => match words[0].as_str() {
            "serve" => Some(Command::Serve),
            "recover" => Some(Command::Recover),
            "inspect" => Some(Command::Inspect),
            _ => None,
        },
        4 => match words[0].as_str() {
            "inspect" => Some(Command::InspectSlot(number(words[3].as_bytes())?)),
            _ => None,
        },
        5 => match words[0].as_str() {
            "workload" => {
                let numbers = workload_numbers_of(words[3].as_str(), words[4].as_str())?;
                Some(Command::Workload(numbers))
            }
            _ => None,
        },
        6 => match words[0].as_str() {
            "format" => {
                let numbers = numbers_of(words[3].as_str(), words[4].as_str(), words[5].as_str())?;
                Some(Command::Format(numbers))
            }
            _ => None,
        },
        _ => None,
    }
}

/// The numbers that these words spell, where they are in their ranges.
fn numbers_of(order: &str, slots: &str, ram: &str) -> Option<Numbers>
    ensures { MatchOption result ((numbers : Numbers) → SpellNumbers order.now slots.now ram.now numbers → ⊥) (SpellNumbers order.now slots.now ram.now) }
{
    let order = number_32(order)?;
    let slots = number_32(slots)?;
    let ram = number_32(ram)?;
    // it judges the three numbers: the sectors are good
    Geometry::new(order, slots, ram, FEWEST_SECTORS).ok()?;
    Some(Numbers { order, slots, ram })
}

/// The numbers of a workload that these words spell, where there are as many requests as may be.
fn workload_numbers_of(seed: &str, count: &str) -> Option<WorkloadNumbers>
    ensures { MatchOption result ((numbers : WorkloadNumbers) → SpellWorkload seed.now count.now numbers → ⊥) (SpellWorkload seed.now count.now) }
{
    let seed = number(seed.as_bytes())?;
    let count = number(count.as_bytes())?;
    if count == 0 || count > MOST_REQUESTS {
        return None;
    }
    Some(WorkloadNumbers { seed, count })
}

/// The number that the word spells.
fn number_32(word: &str) -> Option<u32>
    ensures { MatchOption result ((n : ℕ) → n < 2 ^ 32 → word.now ≡ decimal n → ⊥) (λ n. (n < 2 ^ 32) × (word.now ≡ decimal n)) }
{
    u32::try_from(number(word.as_bytes())?).ok()
}
