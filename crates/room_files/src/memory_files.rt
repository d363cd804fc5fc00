// Files over memory.
ghost use Rattle.std.specs.Prelude.{◌≡◌, ◌≢◌, ◌≤◌, ◌↔◌, ◌⊎◌, [], Some, Err, ℕ, List, length, map, IfOk, IfErr, IsErr, OnOk, OnErr, option_map};
ghost use Rattle.room_ports.specs.Calls.{FailsNext, no_calls, passed, failed};
ghost use Rattle.room_ports.specs.Counts.{HasRisen, counted};
ghost use Rattle.room_files.specs.declared.files.FileFault.TheVariants as faults;
ghost use Rattle.room_files.specs.FilesInside.{named};
ghost use Rattle.room_files.specs.Files.{CountsRead, IsWhole, Keeps, OthersUnchanged, ReadsFile, Refuses, content_in, content_of, files_told, found_content, with_file, Missing};

use crate::{FileFault, Files};
use room_ports::{Failed, FailingCalls, Memory};
use std::alloc::Global;
use std::marker::Model;

/// A file and its name.
#[derive(Drop)]
struct NamedFile {
    name: String,
    bytes: Vec<u8>,
}

/// Files over memory, which fail where they are told to.
#[derive(Drop)]
pub struct MemFiles {
    alloc: Global,
    files: Option<Vec<NamedFile>>,
    calls: FailingCalls,
    read_faults: u64,
    write_faults: u64,
}

impl Model for MemFiles {
    ghost use Rattle.std.specs.Prelude.{map, option_map};
    ghost use Rattle.room_files.specs.States.{FilesState};
    ghost use Rattle.room_files.specs.FilesInside.{named};

    ghost Value = { FilesState };

    ghost view = { λ f. record {
      files = option_map (λ v. map named v.items) f.files;
      calls = f.calls;
      read_faults = f.read_faults;
      write_faults = f.write_faults;
    } };
}

impl MemFiles {
    /// No files. Their reads and writes are numbered from 1 in one sequence, and those whose numbers are in
    /// `failing` fail.
    pub fn new(alloc: Global, failing: Vec<u32>) -> MemFiles
        ensures files { result.files ≡ Some [] }
        ensures calls { result.calls ≡ no_calls failing.items }
        ensures reads { (⟦<MemFiles as Files>⟧.told result).reads ≡ 0 }
        ensures writes { (⟦<MemFiles as Files>⟧.told result).writes ≡ 0 }
    {
        MemFiles {
            alloc,
            files: Some(Vec::new(alloc)),
            calls: FailingCalls::new(failing),
            read_faults: 0,
            write_faults: 0,
        }
    }

    /// Places a file, over one of the same name. It is not numbered among the reads and writes, so that it cannot be
    /// told to fail.
    pub fn put(&mut self, name: &str, bytes: &[u8]) -> Result<(), Memory>
        ensures ok { OnOk result (self.new
            ≡ record self.old {
              files = option_map
                  (with_file name.now bytes.now) self.old.files;
            }) }
        ensures err { OnErr result (self.new ≡ self.old) }
    {
        match &mut self.files {
            Some(files) => add(self.alloc, files, name, bytes),
            None => Ok(()),
        }
    }
}

impl Files for MemFiles {
    ghost told = { λ f. files_told (content_of f.files) f.read_faults f.write_faults };

    /// Answers `Failed` exactly where the number of the call is listed or there is no such file.
    fn read_file(&mut self, alloc: Global, name: &str, limit: u32) -> Result<Vec<u8>, FileFault>
        ensures fails { (result ≡ Err faults.Failed)
            ↔ (FailsNext self.old.calls ⊎ (content_of self.old.files name.now ≡ Missing)) }
        ensures files { self.new.files ≡ self.old.files }
        ensures listed { FailsNext self.old.calls → self.new.calls ≡ failed self.old.calls }
        ensures passed { (FailsNext self.old.calls) ⊎ (self.new.calls ≡ passed self.old.calls) }

        // What all files promise.
        ensures whole { IfOk result (λ v. IsWhole (content_of self.old.files name.now) v.items) }
        ensures within { IfOk result (λ v. length v.items ≤ limit) }
        ensures refuses { IfErr result (λ e. Refuses e (content_of self.old.files name.now) limit) }
        ensures counts { CountsRead result self.old.read_faults self.new.read_faults }
        ensures apart { self.new.write_faults ≡ self.old.write_faults }
    {
        match self.calls.next() {
            Ok(()) => {}
            Err(_) => {
                self.read_faults = self.read_faults.saturating_add(1);
                return Err(FileFault::Failed);
            }
        }
        match read_in(alloc, &self.files, name, limit) {
            Err(FileFault::Failed) => {
                self.read_faults = self.read_faults.saturating_add(1);
                Err(FileFault::Failed)
            }
            Err(fault) => Err(fault),
            Ok(bytes) => Ok(bytes),
        }
    }

    /// Fails exactly where the number of the call is listed, and changes no file then. Where its memory is refused, of
    /// which no clause says when, the files tell nothing from then on.
    fn write_file(&mut self, name: &str, bytes: &[u8]) -> Result<(), Failed>
        ensures fails { IsErr result ↔ FailsNext self.old.calls }
        ensures keeps { OnOk result (Keeps self.old.files self.new.files name.now bytes.now) }
        ensures stays { OnErr result (self.new.files ≡ self.old.files) }
        ensures passed { OnOk result (self.new.calls ≡ passed self.old.calls) }
        ensures failed { OnErr result (self.new.calls ≡ failed self.old.calls) }

        // What all files promise.
        ensures holds { OnOk result (IsWhole (content_of self.new.files name.now) bytes.now) }
        ensures others { OthersUnchanged name.now (content_of self.old.files)
            (content_of self.new.files) }
        ensures cause { OnErr result (HasRisen self.old.write_faults self.new.write_faults) }
        ensures quiet { OnOk result (self.new.write_faults ≡ self.old.write_faults) }
        ensures apart { self.new.read_faults ≡ self.old.read_faults }
    {
        match self.calls.next() {
            Ok(()) => {}
            Err(_) => {
                self.write_faults = self.write_faults.saturating_add(1);
                return Err(Failed);
            }
        }
        match self.put(name, bytes) {
            Ok(()) => {}
            Err(_) => self.files = None,
        }
        Ok(())
    }
}

// The bytes of a file of these: `Failed` where there is none of that name, too large where it has more than `limit`, no
// memory where a write was once lost because there was none.
fn read_in(
    alloc: Global,
    files: &Option<Vec<NamedFile>>,
    name: &str,
    limit: u32,
) -> Result<Vec<u8>, FileFault>
    ensures { ReadsFile (content_of (option_map (λ v. map named v.items) files.now) name.now) limit
        result }
{
    let files = match files {
        Some(files) => files,
        None => return Err(FileFault::Memory),
    };
    match find(files, name) {
        Some(bytes) => {
            if bytes.len() > limit as usize {
                return Err(FileFault::TooLarge);
            }
            Ok(copied(alloc, bytes)?)
        }
        None => Err(FileFault::Failed),
    }
}

// The bytes of the file of a name, which are those that were written last.
fn find<'a>(files: &'a [NamedFile], name: &str) -> Option<&'a [u8]>
    ensures { found_content (option_map (λ b. b.now) result)
        ≡ content_in (map named files.now) name.now }
{
    let mut found = None;
    for file in files {
        if file.name.as_str() == name {
            found = Some(file.bytes.as_slice());
        }
    }
    found
}

// Puts a file after the others, which hides one of the same name.
fn add(alloc: Global, files: &mut Vec<NamedFile>, name: &str, bytes: &[u8]) -> Result<(), Memory>
    ensures ok { OnOk result (map named files.new.items
        ≡ with_file name.now bytes.now (map named files.old.items)) }
    ensures err { OnErr result (map named files.new.items ≡ map named files.old.items) }
{
    let name = String::from_str(alloc, name)?;
    let bytes = copied(alloc, bytes)?;
    files.push(NamedFile { name, bytes })?;
    Ok(())
}

// A copy of these bytes in memory of its own.
pub(crate) fn copied(alloc: Global, bytes: &[u8]) -> Result<Vec<u8>, Memory>
    ensures { IfOk result (λ v. v.items ≡ bytes.now) }
{
    Ok(Vec::from_slice(alloc, bytes)?)
}
