//! An entry of the intake.
ghost use Rattle.std.specs.Prelude.{◌≡◌, IfOk};
ghost use Rattle.wb_geometry.specs.Entering.{entered};

use std::alloc::{AllocError, Global};
use std::marker::Model;
use wb_geometry::{Block, Entry};

/// An entry that was put into the intake. Contracts see it as the entry of the history that it stands for.
#[derive(Debug, Drop)]
pub struct Item {
    entry: Entry,
}

impl Model for Item {
    ghost use Rattle.wb_geometry.specs.History.{HistoryEntry};
    ghost use Rattle.wb_geometry.specs.Entering.{entered};
    ghost use Rattle.wb_steps.specs.Coding.{entry_code};

    ghost Value = { HistoryEntry };

    ghost coded = { entry_code };

    ghost view = { λ i. entered i.entry };
}

/// A copy of an entry.
fn copied(alloc: Global, entry: &Entry) -> Result<Entry, AllocError>
    ensures { IfOk result (λ e. entered e ≡ entered entry.now) }
{
    match entry {
        Entry::Write {
            client,
            block,
            payload,
        } => {
            let payload = Box::new(alloc, Block::of(payload.bits, payload.payload))?;
            Ok(Entry::Write {
                client: *client,
                block: *block,
                payload,
            })
        }
        Entry::Void { client } => Ok(Entry::Void { client: *client }),
    }
}

impl Item {
    ghost use Rattle.std.specs.Prelude.{◌≡◌, IfOk};
    ghost use Rattle.wb_geometry.specs.Entering.{entered};

    /// The item of an entry.
    pub fn of(entry: Entry) -> Item
        ensures { result ≡ entered entry }
    {
        Item { entry }
    }

    /// The entry.
    pub fn entry(&self) -> &Entry
        ensures { entered result.now ≡ self.now }
    {
        &self.entry
    }

    /// A copy of an entry.
    pub fn copy_of(alloc: Global, entry: &Entry) -> Result<Item, AllocError>
        ensures { IfOk result (λ i. i ≡ entered entry.now) }
    {
        let entry = copied(alloc, entry)?;
        Ok(Item { entry })
    }

    /// A copy.
    pub fn copied(&self, alloc: Global) -> Result<Item, AllocError>
        ensures { IfOk result (λ i. i ≡ self.now) }
    {
        let entry = copied(alloc, &self.entry)?;
        Ok(Item { entry })
    }

    /// The entry, taken out.
    pub fn into_entry(self) -> Entry
        ensures { entered result ≡ self }
    {
        let Item { entry } = self;
        entry
    }
}
