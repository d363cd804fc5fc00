// A file over memory, with each call that was made on it.
ghost use Rattle.std.specs.Prelude.{◌≡◌, ◌+◌, ◌-◌, ◌++◌, [], length, take, drop, map, min, replicate};
ghost use Rattle.std.specs.Prelude.{IfOk, IfSome, OnOk};
ghost use Rattle.room_disks.specs.Crashes.{written};
ghost use Rattle.room_disks.specs.Tapes.{Puts, CutsTo, with_call, held_by};
ghost use Rattle.room_disks.specs.TapesInside.{done_of, LeavesReads};

use room_ports::Memory;
use std::alloc::{AllocError, Global};
use std::marker::Model;

/// A call on a file over memory. Places and lengths are in bytes.
#[derive(Drop)]
pub enum DiskCall {
    /// It changed nothing: a look, or a sync that failed.
    Looked,
    /// These bytes were written at this place.
    Wrote(u32, Vec<u8>),
    /// A write of so many bytes at this place failed.
    FailedToWrite(u32, usize),
    /// The file was cut to this length.
    Cut(u32),
    /// A cut to this length failed.
    FailedToCut(u32),
    /// A sync that succeeded.
    Synced,
}

/// What a file holds, what it held at first, and the calls since.
#[derive(Drop)]
pub struct TapeFile {
    alloc: Global,
    start: Vec<u8>,
    bytes: Vec<u8>,
    calls: Vec<DiskCall>,
}

impl Model for TapeFile {
    ghost use Rattle.std.specs.Prelude.{◌≡◌, ◌<◌, ◌^◌, map, vec_len};
    ghost use Rattle.room_disks.specs.Tapes.{Tape, held_by};

    ghost Value = { Tape };

    ghost use Rattle.room_disks.specs.TapesInside.{done_of};

    ghost view = { λ t. record { start = t.start.items; done = map done_of t.calls.items } };

    ghost invariant = { λ t. (t.bytes.items ≡ held_by (record {
      start = t.start.items;
      done = map done_of t.calls.items;
    })) × (vec_len t.bytes < 2 ^ 32) };
}

impl TapeFile {
    /// A file with these bytes, all of them on the disk; `None` where they are more than a u32 tells, or where memory
    /// is refused.
    pub fn new(alloc: Global, bytes: Vec<u8>) -> Option<TapeFile>
        ensures { IfSome result (λ t. t ≡ record { start = bytes.items; done = [] }) }
    {
        if bytes.len() > u32::MAX as usize {
            return None;
        }
        match Vec::from_slice(alloc, bytes.as_slice()) {
            Ok(start) => Some(TapeFile {
                alloc,
                start,
                bytes,
                calls: Vec::new(alloc),
            }),
            Err(_) => None,
        }
    }

    /// Notes a call that leaves what a read gives.
    pub fn note(&mut self, call: DiskCall) -> Result<(), Memory>
        requires { LeavesReads (done_of call) }
        ensures { OnOk result (self.new ≡ with_call (done_of call) self.old) }
    {
        self.calls.push(call)?;
        Ok(())
    }

    /// Writes bytes at a place and notes it. It finds no memory also where the file gets longer than a u32 tells.
    pub fn write(&mut self, at: u32, piece: &[u8]) -> Result<(), Memory>
        ensures { OnOk result (self.new ≡ with_call (Puts at piece.now) self.old) }
    {
        let next = written(self.alloc, self.bytes.as_slice(), at as usize, piece)?;
        if next.len() > u32::MAX as usize {
            return Err(Memory);
        }
        let piece = Vec::from_slice(self.alloc, piece)?;
        self.calls.push(DiskCall::Wrote(at, piece))?;
        self.bytes = next;
        Ok(())
    }

    /// Cuts the file to a length and notes it, or finds no memory. One that is no longer than that stays.
    pub fn cut(&mut self, len: u32) -> Result<(), Memory>
        ensures { OnOk result (self.new ≡ with_call (CutsTo len) self.old) }
    {
        self.calls.push(DiskCall::Cut(len))?;
        self.bytes.truncate(len as usize);
        Ok(())
    }

    /// Reads the bytes from a place on, as many as there is room for, and answers how many. No call is noted.
    pub fn read(&self, at: u32, into: &mut [u8]) -> usize
        ensures count { result ≡ min (length (held_by self.now) - at) (length into.old) }
        ensures bytes { take result into.new ≡ take result (drop at (held_by self.now)) }
    {
        copy_from(&self.bytes, at as usize, into)
    }

    /// How many bytes a read gives. No call is noted.
    pub fn len(&self) -> u32
        ensures { result ≡ length (held_by self.now) }
    {
        self.bytes.len() as u32
    }

    /// What a read gives.
    pub fn bytes(&self) -> &[u8]
        ensures { result.now ≡ held_by self.now }
    {
        &self.bytes
    }

    /// What the file held at first.
    pub fn start(&self) -> &[u8]
        ensures { result.now ≡ self.now.start }
    {
        &self.start
    }

    /// The calls since, the first call first.
    pub fn calls(&self) -> &[DiskCall]
        ensures { map done_of result.now ≡ self.now.done }
    {
        &self.calls
    }
}

// Copies bytes from a place on, as many as there is room for, and answers how many.
fn copy_from(bytes: &[u8], at: usize, into: &mut [u8]) -> usize
    ensures count { result ≡ min (length bytes.now - at) (length into.old) }
    ensures bytes { take result into.new ≡ take result (drop at bytes.now) }
{
    if at > bytes.len() {
        return 0;
    }
    let (_, rest) = bytes.split_at(at);
    let count = rest.len().min(into.len());
    into[..count].copy_from_slice(&rest[..count]);
    count
}

// The bytes with a piece written over them at a place; zeros stand between their end and a place past it.
fn written(alloc: Global, bytes: &[u8], at: usize, piece: &[u8]) -> Result<Vec<u8>, AllocError>
    ensures { IfOk result (λ v. v.items ≡ written at piece.now bytes.now) }
{
    let mut next = Vec::from_slice(alloc, &bytes[..at.min(bytes.len())])?;
    pad(&mut next, at)?;
    next.extend_from_slice(piece)?;
    next.extend_from_slice(behind(bytes, at, piece.len()))?;
    Ok(next)
}

// What is after a place and so many bytes more.
fn behind(bytes: &[u8], at: usize, count: usize) -> &[u8]
    ensures { result.now ≡ drop (at + count) bytes.now }
{
    if at > bytes.len() || count > bytes.len() - at {
        return &[];
    }
    let (_, rest) = bytes.split_at(at + count);
    rest
}

// Adds zeros up to a length.
fn pad(bytes: &mut Vec<u8>, len: usize) -> Result<(), AllocError>
    ensures { OnOk result (bytes.new.items
        ≡ bytes.old.items ++ replicate (len - length bytes.old.items) 0) }
{
    let mut count = bytes.len();
    while count < len {
        bytes.push(0)?;
        count += 1;
    }
    Ok(())
}
