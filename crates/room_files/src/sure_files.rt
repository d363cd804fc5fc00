// Files over memory that never fail.
ghost use Rattle.std.specs.Prelude.{◌≡◌, ◌≤◌, [], Some, Err, Ok, ℕ, List, length, IfOk, IfErr, IfSome, IsOk, OnOk, OnErr, option_map};
ghost use Rattle.room_files.specs.declared.files.FileFault.TheVariants as faults;
ghost use Rattle.room_files.specs.Files.{CountsRead, IsWhole, KeepsWithin, OthersUnchanged, ReadsFile, Refuses, content_of, files_told, or_empty};
ghost use Rattle.room_files.specs.WrittenInside.{IsKept, files_of};

use crate::memory_files::copied;
use crate::written::Written;
use crate::{FileFault, Files};
use room_ports::{Failed, Memory};
use std::alloc::Global;
use std::marker::Model;

/// Files over memory that never fail. A name that was not written is an empty file. They tell what they hold while at
/// most 64 writes were made, under names of at most 4,096 bytes together, which wrote at most as many bytes as there is
/// room for; from then on they tell nothing, and a read finds no memory.
#[derive(Drop)]
pub struct SureFiles {
    written: Option<Written>,
    room: usize,
}

impl Model for SureFiles {
    ghost use Rattle.std.specs.Prelude.{IfSome, option_map};
    ghost use Rattle.room_files.specs.States.{SureFilesState};
    ghost use Rattle.room_files.specs.WrittenInside.{IsKept, files_of};

    ghost Value = { SureFilesState };

    ghost view = { λ f. record { files = option_map files_of f.written; room = f.room } };

    ghost invariant = { λ f. IfSome f.written (λ w. IsKept f.room w) };
}

impl SureFiles {
    /// No files, with room for so many bytes.
    pub fn new(alloc: Global, room: u32) -> Result<SureFiles, Memory>
        ensures files { IfOk result (λ f. f.files ≡ Some []) }
        ensures room { IfOk result (λ f. f.room ≡ room) }
    {
        let room = room as usize;
        let written = Written::new(alloc, room)?;
        Ok(SureFiles {
            written: Some(written),
            room,
        })
    }
}

impl Files for SureFiles {
    ghost told = { λ f. files_told (λ name. or_empty (content_of f.files name)) 0 0 };

    /// Never answers `Failed`: a name that was not written is an empty file.
    fn read_file(&mut self, alloc: Global, name: &str, limit: u32) -> Result<Vec<u8>, FileFault>
        ensures sure { (result ≡ Err faults.Failed) → ⊥ }
        ensures stays { self.new ≡ self.old }

        // What all files promise.
        ensures whole { IfOk result (λ v. IsWhole
            (or_empty (content_of self.old.files name.now)) v.items) }
        ensures within { IfOk result (λ v. length v.items ≤ limit) }
        ensures refuses { IfErr result (λ e. Refuses e
            (or_empty (content_of self.old.files name.now)) limit) }
        ensures counts { CountsRead result 0 0 }
    {
        read_kept(alloc, &self.written, name, limit)
    }

    /// Never fails. A write past the room, or past the 64 writes and the names that are told, loses all that was told.
    fn write_file(&mut self, name: &str, bytes: &[u8]) -> Result<(), Failed>
        ensures sure { IsOk result }
        ensures keeps { KeepsWithin self.old.room self.old.files self.new.files name.now bytes.now }
        ensures room { self.new.room ≡ self.old.room }

        // What all files promise.
        ensures holds { IsWhole (or_empty (content_of self.new.files name.now)) bytes.now }
        ensures others { OthersUnchanged name.now
            (λ n. or_empty (content_of self.old.files n))
            (λ n. or_empty (content_of self.new.files n)) }
    {
        let written = self.written.take();
        self.written = kept_within(written, self.room, name, bytes);
        Ok(())
    }
}

// Reads what was written last under this name: too large where it has more than `limit`, no
// memory where nothing is told.
fn read_kept(
    alloc: Global,
    written: &Option<Written>,
    name: &str,
    limit: u32,
) -> Result<Vec<u8>, FileFault>
    requires { IfSome written.now (λ w. (room : ℕ) × IsKept room w) }
    ensures reads { ReadsFile (or_empty (content_of (option_map files_of written.now) name.now))
        limit result }
    ensures sure { (result ≡ Err faults.Failed) → ⊥ }
{
    match written {
        Some(written) => {
            let bytes = written.find(name);
            if bytes.len() > limit as usize {
                return Err(FileFault::TooLarge);
            }
            Ok(copied(alloc, bytes)?)
        }
        None => Err(FileFault::Memory),
    }
}

// With a write more while there is room for it. Where there is none, nothing is told any more.
fn kept_within(written: Option<Written>, room: usize, name: &str, bytes: &[u8]) -> Option<Written>
    requires { IfSome written (λ w. IsKept room w) }
    ensures keeps { KeepsWithin room (option_map files_of written)
        (option_map files_of result) name.now bytes.now }
    ensures kept { IfSome result (λ w. IsKept room w) }
{
    let mut kept = match written {
        Some(kept) => kept,
        None => return None,
    };
    if !kept.has_room(room, name, bytes) {
        return None;
    }
    match kept.add(room, name, bytes) {
        Ok(()) => Some(kept),
        Err(_) => None,
    }
}
