// A file that outlives a stop: what a read gives, and what a crash may leave of it.
ghost use Rattle.std.specs.Prelude.{◌≡◌, ◌<◌, ◌≤◌, ◌↔◌, ℕ, List, length, take, drop};
ghost use Rattle.std.specs.Prelude.{Option, Some, IfSome, IfOk, OnOk, OnErr};
ghost use Rattle.room_ports.specs.Counts.{HasRisen};
ghost use Rattle.room_disks.specs.Crashes.{Course, Range, Cut, IsImage, Told, Stays, Syncs, Changes, Writes, Cuts};

use room_ports::Failed;

/// A disk with files, of which one is open: all calls but `open` speak of the file that the last `open` named that
/// succeeded, and answer `Failed` where there is none. Places and lengths are in bytes.
pub trait Disk {
    /// How the open file has stood from call to call, and with that what a crash may leave of it (`IsImage`), where the
    /// disk tells that.
    ghost course: { Self → Option Course };

    /// How the file of a name stands, where the disk tells that: what an `open` by that name finds. One that is not
    /// there is empty.
    ghost file: { Self → List ℕ → Option Course };

    /// How often a call has failed.
    ghost faults: { Self → ℕ };

    /// Opens a file by its name, and makes it where there is none.
    fn open(&mut self, name: &str) -> Result<(), Failed>
        ensures opens { OnOk result (Told Stays (file self.old name.now) (course self.new)) }
        ensures stays { OnErr result (Told Stays (course self.old) (course self.new)) }
        ensures cause { OnErr result (HasRisen (faults self.old) (faults self.new)) }
        ensures quiet { OnOk result (faults self.new ≡ faults self.old) };

    /// How many bytes the file has. It fails where they are more than a u32 tells.
    fn len(&mut self) -> Result<u32, Failed>
        ensures len { IfOk result (λ n. IfSome (course self.old) (λ c. n ≡ length c.now.reads)) }
        ensures stays { Told Stays (course self.old) (course self.new) }
        ensures cause { OnErr result (HasRisen (faults self.old) (faults self.new)) }
        ensures quiet { OnOk result (faults self.new ≡ faults self.old) };

    /// Reads bytes from a place on into the head of `into` and answers how many; where there is room, 0 is the end.
    fn read(&mut self, at: u32, into: &mut [u8]) -> Result<usize, Failed>
        ensures within { IfOk result (λ n. n ≤ length into.old) }
        ensures gives { IfOk result (λ n. IfSome (course self.old)
            (λ c. take n into.new ≡ take n (drop at c.now.reads))) }
        ensures end { IfOk result (λ n. 0 < length into.old → IfSome (course self.old)
            (λ c. (n ≡ 0) ↔ (length c.now.reads ≤ at))) }
        ensures stays { Told Stays (course self.old) (course self.new) }
        ensures cause { OnErr result (HasRisen (faults self.old) (faults self.new)) }
        ensures quiet { OnOk result (faults self.new ≡ faults self.old) };

    /// Writes over what is there from a place on, and past the end. Until the next sync that succeeds, a crash may
    /// leave any bytes there, also where the write failed.
    fn write_at(&mut self, at: u32, bytes: &[u8]) -> Result<(), Failed>
        ensures writes { OnOk result (Told (Writes at bytes.now)
            (course self.old) (course self.new)) }
        ensures changes { Told (Changes (Range at (length bytes.now)))
            (course self.old) (course self.new) }
        ensures cause { OnErr result (HasRisen (faults self.old) (faults self.new)) }
        ensures quiet { OnOk result (faults self.new ≡ faults self.old) };

    /// Cuts the file to a length; one that is no longer than that stays. Until the next sync that succeeds, a crash may
    /// leave it with the cut or without, also where the cut failed.
    fn cut(&mut self, len: u32) -> Result<(), Failed>
        ensures cuts { OnOk result (Told (Cuts len) (course self.old) (course self.new)) }
        ensures changes { Told (Changes (Cut len)) (course self.old) (course self.new) }
        ensures cause { OnErr result (HasRisen (faults self.old) (faults self.new)) }
        ensures quiet { OnOk result (faults self.new ≡ faults self.old) };

    /// After it a crash leaves what a read gives, and nothing else.
    fn sync(&mut self) -> Result<(), Failed>
        ensures syncs { OnOk result (Told Syncs (course self.old) (course self.new)) }
        ensures stays { OnErr result (Told Stays (course self.old) (course self.new)) }
        ensures cause { OnErr result (HasRisen (faults self.old) (faults self.new)) }
        ensures quiet { OnOk result (faults self.new ≡ faults self.old) };

    /// What a read gives is one of those that a crash may leave.
    ghost reads_are_an_image: { (d : Self) (c : Course) → course d ≡ Some c
        → IsImage c.now c.now.reads };
}
