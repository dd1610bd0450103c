//! What comes into the history.
ghost use Rattle.std.specs.Prelude.{◌≡◌, ◌+◌, ◌%◌, ◌^◌, ◌<◌, ◌≤◌, ◌++◌, ◌∷◌, [], List, length};
ghost use Rattle.wb_geometry.specs.Image.{Image};
ghost use Rattle.wb_geometry.specs.History.{HistoryEntry};
ghost use Rattle.wb_geometry.specs.Entering.{entered};
ghost use Rattle.wb_engine.specs.Standing.{Standing, IsSynced, MayCome, IsOffDevices, IsDirty, Keeps, IsSealedIfFull, numbers_at};

use crate::engine::Engine;
use wb_crash::Numbers;
use wb_device::Device;
use wb_geometry::Entry;
use wb_memory::Memory;

impl<L: Device, B: Device> Engine<L, B> {
    /// Takes the next entry of the history: it gets the place `absorbed`. There must be room (`absorbed` is below `limit`),
    /// its segment's id is at most `2 ^ 48`, and a write has a dirty sector, and its block is inside the backing device;
    /// another entry may not be the first of its segment. A segment that is full is sealed. Neither device is called.
    pub fn absorb(&mut self, entry: Entry)
        requires { MayCome self.old entry }
        ensures stands { (base : Image) (history : List HistoryEntry) → Standing L.state B.state self.old base history
            → Standing L.state B.state self.new base (history ++ entered entry ∷ []) }
        ensures synced { IsSynced L.state B.state self.old → IsSynced L.state B.state self.new }
        ensures absorbed { self.new.absorbed ≡ self.old.absorbed + 1 }
        ensures numbers { self.new.numbers ≡ numbers_at self.old.geometry self.old.numbers (self.old.absorbed + 1) }
        ensures kept { IsOffDevices self.old self.new }
    {
        keep(&mut self.memory, entry);
        self.absorbed += 1;
        seal_if_full(
            &mut self.numbers,
            &mut self.memory,
            self.absorbed,
            self.geometry.places(),
        );
    }
}

/// Puts the entry into the open segment, where it is a write.
fn keep(memory: &mut Memory, entry: Entry)
    requires sealed { length memory.old.sealed < memory.old.segments }
    requires room { length memory.old.current.blocks < memory.old.places }
    requires some { IsDirty entry }
    ensures { Keeps entry memory.old memory.new }
{
    if let Entry::Write { block, payload, .. } = entry {
        memory.put(block, payload);
    }
}

/// Seals the open segment where all of its places, so many a segment, are taken.
fn seal_if_full(numbers: &mut Numbers, memory: &mut Memory, absorbed: u64, places: u64)
    requires places { 1 ≤ places }
    requires some { absorbed % places ≡ 0 → 1 ≤ length memory.old.current.blocks }
    requires sealed { length memory.old.sealed < memory.old.segments }
    requires id { memory.old.current.id < 2 ^ 63 }
    requires number { numbers.old.sealed < 2 ^ 63 }
    ensures { IsSealedIfFull absorbed places numbers.old numbers.new memory.old memory.new }
{
    if absorbed % places == 0 {
        memory.seal();
        numbers.sealed += 1;
    }
}
