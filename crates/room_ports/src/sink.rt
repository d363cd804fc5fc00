// Sinks over memory.
ghost use Rattle.std.specs.Prelude.{◌≡◌, ◌≤◌, ◌<◌, ◌↔◌, [], length, take, vec_len, vec_capacity, None, Some, IfSome, IfOk, IsOk, IsErr, OnOk, OnErr};
ghost use Rattle.std.specs.Option.{option_copied, option_map};
ghost use Rattle.room_ports.specs.Bytes.{Takes};
ghost use Rattle.room_ports.specs.Calls.{no_calls, FailsNext, passed, failed};
ghost use Rattle.room_ports.specs.Counts.{HasRisen};
ghost use Rattle.room_ports.specs.Sides.{no_source};
ghost use Rattle.room_ports.specs.States.{kept};

use crate::calls::FailingCalls;
use crate::{Failed, Memory, Sink};
use std::alloc::Global;
use std::marker::Model;

/// Takes each piece whole into memory, and fails where it is told to.
#[derive(Drop)]
pub struct MemSink {
    bytes: Option<Vec<u8>>,
    calls: FailingCalls,
}

impl Model for MemSink {
    ghost use Rattle.std.specs.Option.{option_map};
    ghost use Rattle.room_ports.specs.States.{SinkState};

    ghost Value = { SinkState };

    ghost view = { λ s. record { bytes = option_map (λ v. v.items) s.bytes; calls = s.calls } };
}

impl MemSink {
    /// A sink that has taken nothing. Its writes are numbered from 1, and those whose numbers are in `failing`
    /// fail and take nothing.
    pub fn new(alloc: Global, failing: Vec<u32>) -> Self
        ensures bytes { result.bytes ≡ Some [] }
        ensures calls { result.calls ≡ no_calls failing.items }
        ensures taken { ⟦<MemSink as Sink>⟧.taken result ≡ Some [] }
        ensures faults { ⟦<MemSink as Sink>⟧.write_faults result ≡ 0 }
    {
        MemSink {
            bytes: Some(Vec::new(alloc)),
            calls: FailingCalls::new(failing),
        }
    }

    /// The bytes that it has taken; `None` from a write on whose memory was refused, of which no clause says when.
    pub fn bytes(&self) -> Option<&[u8]>
        ensures { option_copied result ≡ self.now.bytes }
    {
        told(&self.bytes)
    }
}

impl Sink for MemSink {
    ghost taken = { λ s. s.bytes };

    ghost write_faults = { λ s. s.calls.faults };

    ghost as_source = { λ _. no_source };

    /// Fails exactly where the number of the call is listed, and takes else the whole piece. Where its memory is
    /// refused, of which no clause says when, the sink tells nothing from then on.
    fn write(&mut self, piece: &[u8]) -> Result<usize, Failed>
        ensures fails { IsErr result ↔ FailsNext self.old.calls }
        ensures whole { IfOk result (λ n. n ≡ length piece.now) }
        ensures takes { OnOk result (Takes self.old.bytes self.new.bytes piece.now) }
        ensures passed { OnOk result (self.new.calls ≡ passed self.old.calls) }
        ensures failed { OnErr result (self.new.calls ≡ failed self.old.calls) }
        ensures stays { OnErr result (self.new.bytes ≡ self.old.bytes) }

        // What every sink promises.
        ensures cause { OnErr result (HasRisen self.old.calls.faults self.new.calls.faults) }
        ensures count { self.old.calls.faults ≤ self.new.calls.faults }
    {
        self.calls.next()?;
        keep(&mut self.bytes, piece);
        Ok(piece.len())
    }
}

/// Takes each piece whole and never fails. It tells its bytes while they are no more than it has room for.
#[derive(Drop)]
pub struct SureSink {
    bytes: Option<Vec<u8>>,
    room: usize,
}

impl Model for SureSink {
    ghost use Rattle.std.specs.Prelude.{◌≤◌, IfSome, vec_capacity, vec_len};
    ghost use Rattle.std.specs.Option.{option_map};
    ghost use Rattle.room_ports.specs.States.{RoomState};

    ghost Value = { RoomState };

    ghost view = { λ s. record { bytes = option_map (λ v. v.items) s.bytes; room = s.room } };

    ghost invariant = { λ s. IfSome s.bytes (λ v. (vec_len v ≤ s.room)
        × (s.room ≤ vec_capacity v)) };
}

impl SureSink {
    /// A sink that has taken nothing, with room for so many bytes.
    pub fn new(alloc: Global, room: u32) -> Result<SureSink, Memory>
        ensures bytes { IfOk result (λ s. s.bytes ≡ Some []) }
        ensures room { IfOk result (λ s. s.room ≡ room) }
        ensures taken { IfOk result (λ s. ⟦<SureSink as Sink>⟧.taken s ≡ Some []) }

        // With no room it is always made.
        ensures none { room ≡ 0 → IsOk result }
    {
        let room = room as usize;
        let bytes = Vec::with_capacity(alloc, room)?;
        Ok(SureSink {
            bytes: Some(bytes),
            room,
        })
    }

    /// A sink that takes everything and tells nothing.
    pub fn untold() -> SureSink
        ensures { (result.bytes ≡ None) × (result.room ≡ 0) }
    {
        SureSink {
            bytes: None,
            room: 0,
        }
    }

    /// The bytes that it has taken; `None` once they are more than it has room for.
    pub fn bytes(&self) -> Option<&[u8]>
        ensures { option_copied result ≡ self.now.bytes }
    {
        told(&self.bytes)
    }
}

impl Sink for SureSink {
    ghost taken = { λ s. s.bytes };

    ghost write_faults = { λ _. 0 };

    ghost as_source = { λ _. no_source };

    /// Takes the whole piece. Once its bytes are more than it has room for the sink tells nothing from then on.
    fn write(&mut self, piece: &[u8]) -> Result<usize, Failed>
        ensures sure { IsOk result }
        ensures whole { IfOk result (λ n. n ≡ length piece.now) }
        ensures kept { self.new.bytes ≡ kept self.old.room self.old.bytes piece.now }
        ensures room { self.new.room ≡ self.old.room }

        // What every sink promises.
        ensures takes { OnOk result (Takes self.old.bytes self.new.bytes piece.now) }
    {
        keep_within(&mut self.bytes, self.room, piece);
        Ok(piece.len())
    }
}

// What stands in memory, if it is told.
fn told(bytes: &Option<Vec<u8>>) -> Option<&[u8]>
    ensures { option_copied result ≡ option_map (λ v. v.items) bytes.now }
{
    match bytes {
        Some(bytes) => Some(bytes.as_slice()),
        None => None,
    }
}

// Adds a piece, or tells nothing any more where its memory is refused.
fn keep(bytes: &mut Option<Vec<u8>>, piece: &[u8])
    ensures { Takes (option_map (λ v. v.items) bytes.old)
        (option_map (λ v. v.items) bytes.new) piece.now }
{
    if let Some(kept) = bytes
        && kept.extend_from_slice(piece).is_err()
    {
        *bytes = None;
    }
}

// Adds a piece while there is room for it, and tells nothing any more where there is none.
fn keep_within(bytes: &mut Option<Vec<u8>>, room: usize, piece: &[u8])
    requires { IfSome bytes.old (λ v. (vec_len v ≤ room) × (room ≤ vec_capacity v)) }
    ensures kept { option_map (λ v. v.items) bytes.new
        ≡ kept room (option_map (λ v. v.items) bytes.old) piece.now }
    ensures room { IfSome bytes.new (λ v. (vec_len v ≤ room) × (room ≤ vec_capacity v)) }
{
    if let Some(kept) = bytes
        && (piece.len() > room - kept.len() || kept.extend_from_slice(piece).is_err())
    {
        *bytes = None;
    }
}
