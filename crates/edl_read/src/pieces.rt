// A channel's text, piece by piece.
ghost use Rattle.std.specs.Prelude.{◌≡◌, ℕ, ◌+◌, ◌-◌, ◌<◌, ◌≤◌, ◌^◌, ◌++◌, List, [], IfOk, OnOk};
ghost use Rattle.frame_meaning.specs.declared.frames.Frame.{Frame};
ghost use Rattle.frame_meaning.specs.declared.frames.Frame.TheVariants.{Dark};
ghost use Rattle.frame_meaning.specs.RunFrames.{frames_from};
ghost use Rattle.edl_events.specs.Events.{IsEvent};
ghost use Rattle.edl_events.specs.Tape.{event_frame};
ghost use Rattle.edl_read.specs.Pieces.{EndsAt, IsEven, IsPiece, event_frames, piece_frames, text_on};

use crate::line_text::put_run;
use crate::{Channel, Event, Memory};
use frame_meaning::{Frame, goes_on};
use reel_names::Name;
use std::marker::Model;

/// Frames of a channel of which each goes on from the one before.
#[derive(Clone, Copy, Debug)]
pub(crate) struct Piece {
    /// The record frame of the first.
    pub place: u32,
    pub first: Frame<Name>,
    pub last: Frame<Name>,
    pub len: u32,
}

/// The piece that is held back until it is known where its run ends. Contracts see the piece.
#[derive(Drop)]
pub(crate) struct Pending {
    piece: Piece,
}

impl Model for Pending {
    ghost use Rattle.edl_read.specs.declared.pieces.Piece.{Piece};

    ghost Value = { Piece };

    ghost view = { λ h. h.piece };
}

impl Pending {
    // No frame, before the first of a channel.
    pub(crate) fn none() -> Pending
        ensures { result ≡ record { place = 0; first = Dark; last = Dark; len = 0 } }
    {
        Pending {
            piece: Piece {
                place: 0,
                first: Frame::Dark,
                last: Frame::Dark,
                len: 0,
            },
        }
    }

    // Adds its run to a text, if it has frames.
    pub(crate) fn end(self, out: &mut Vec<u8>, channel: Channel) -> Result<(), Memory>
        ensures { OnOk result (out.new.items ≡ out.old.items ++ text_on channel self []) }
    {
        let Pending { piece } = self;
        if piece.len == 0 {
            return Ok(());
        }
        put_run(out, channel, &piece)?;
        Ok(())
    }
}

// Adds the dark frames from one record frame up to another.
pub(crate) fn add_gap(
    out: &mut Vec<u8>,
    channel: Channel,
    held: Pending,
    at: u32,
    to: u32,
) -> Result<Pending, Memory>
    requires order { at ≤ to }
    requires held { EndsAt held at }
    ensures text { IfOk result (λ p. (rest : List (Frame (List ℕ)))
        → out.new.items ++ text_on channel p rest
        ≡ out.old.items ++ text_on channel held (frames_from Dark (to - at) ++ rest)) }
    ensures held { IfOk result (λ p. EndsAt p to) }
{
    let gap = Piece {
        place: at,
        first: Frame::Dark,
        last: Frame::Dark,
        len: to - at,
    };
    append_piece(out, channel, held, &gap)
}

// Adds the frames of an event: those of its dissolve, and those after them.
pub(crate) fn add_event(
    out: &mut Vec<u8>,
    channel: Channel,
    held: Pending,
    event: &Event,
) -> Result<Pending, Memory>
    requires event { IsEvent event.now }
    requires held { EndsAt held event.now.place }
    ensures text { IfOk result (λ p. (rest : List (Frame (List ℕ)))
        → out.new.items ++ text_on channel p rest
        ≡ out.old.items ++ text_on channel held (event_frames event.now ++ rest)) }
    ensures held { IfOk result (λ p. EndsAt p (event.now.place + event.now.len)) }
{
    let mixed = add_part(out, channel, held, event, 0, event.frames)?;
    let all = add_part(out, channel, mixed, event, event.frames, event.len)?;
    Ok(all)
}

// Adds the frames of an event from one up to another.
fn add_part(
    out: &mut Vec<u8>,
    channel: Channel,
    held: Pending,
    event: &Event,
    from: u32,
    to: u32,
) -> Result<Pending, Memory>
    requires event { IsEvent event.now }
    requires order { from ≤ to }
    requires within { to ≤ event.now.len }
    requires even { IsEven event.now from to }
    requires held { EndsAt held (event.now.place + from) }
    ensures text { IfOk result (λ p. (rest : List (Frame (List ℕ)))
        → out.new.items ++ text_on channel p rest
        ≡ out.old.items ++ text_on channel held
        (frames_from (event_frame event.now from) (to - from) ++ rest)) }
    ensures held { IfOk result (λ p. EndsAt p (event.now.place + to)) }
{
    if from == to {
        return Ok(held);
    }
    let part = Piece {
        place: event.place + from,
        first: event.frame_at(from),
        last: event.frame_at(to - 1),
        len: to - from,
    };
    append_piece(out, channel, held, &part)
}

// Appends a piece: joins it to the pending one where it goes on from that, and else writes the pending one's run.
fn append_piece(
    out: &mut Vec<u8>,
    channel: Channel,
    held: Pending,
    piece: &Piece,
) -> Result<Pending, Memory>
    requires held { EndsAt held piece.now.place }
    requires piece { IsPiece piece.now }
    requires end { piece.now.place + piece.now.len < 2 ^ 32 }
    ensures text { IfOk result (λ p. (rest : List (Frame (List ℕ)))
        → out.new.items ++ text_on channel p rest
        ≡ out.old.items ++ text_on channel held (piece_frames piece.now ++ rest)) }
    ensures held { IfOk result (λ p. EndsAt p (piece.now.place + piece.now.len)) }
{
    if piece.len == 0 {
        return Ok(held);
    }
    let Pending { piece: before } = held;
    if before.len == 0 {
        return Ok(Pending { piece: *piece });
    }
    let last = append_to_piece(out, channel, &before, piece)?;
    Ok(Pending { piece: last })
}

// Appends a piece to the pending one, where both have frames.
fn append_to_piece(
    out: &mut Vec<u8>,
    channel: Channel,
    held: &Piece,
    piece: &Piece,
) -> Result<Piece, Memory>
    requires some { 0 < held.now.len }
    requires more { 0 < piece.now.len }
    requires held { EndsAt held.now piece.now.place }
    requires piece { IsPiece piece.now }
    requires end { piece.now.place + piece.now.len < 2 ^ 32 }
    ensures text { IfOk result (λ p. (rest : List (Frame (List ℕ)))
        → out.new.items ++ text_on channel p rest
        ≡ out.old.items ++ text_on channel held.now (piece_frames piece.now ++ rest)) }
    ensures held { IfOk result (λ p. EndsAt p (piece.now.place + piece.now.len)) }
{
    if goes_on(&held.last, &piece.first) {
        return Ok(Piece {
            place: held.place,
            first: held.first,
            last: piece.last,
            len: held.len + piece.len,
        });
    }
    put_run(out, channel, held)?;
    Ok(*piece)
}
