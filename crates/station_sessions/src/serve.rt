// The session over a whole input: its lines, in whatever pieces they come, each with its reply.
ghost use Rattle.std.specs.Prelude.{◌≡◌, ◌+◌, ◌<◌, ◌≤◌, ◌^◌, ◌∷◌, [], List, None, Some, length, IfErr, OnOk};
ghost use Rattle.line_words.specs.Lines.{Line as InputLine, last_line};
ghost use Rattle.line_words.specs.Pieces.{ended, pending_after};
ghost use Rattle.line_words.specs.Told.{line_told};
ghost use Rattle.room_keepers.specs.Faults.{IsCounted};
ghost use Rattle.edit_journal.specs.Turns.{last_of};
ghost use Rattle.room_core.specs.Projection.{of_station};
ghost use Rattle.station_sessions.specs.Outside.{outside, most_input, AreSent};
ghost use Rattle.station_sessions.specs.Rooms.{AreWritten};
ghost use Rattle.station_sessions.specs.Served.{BreaksTo, IsRoomOf, Knows, KnowsBut, ServesTo, StaysWritten};
ghost use Rattle.station_sessions.specs.SessionInside.{IsLegalThere, IsOrigin};
ghost use Rattle.station_sessions.specs.Transcript.{Origin, most_base};
ghost use Rattle.otio_json.specs.declared.opening.Opening.{Opening as OpeningOf};
ghost use Rattle.station_sessions.specs.Serving.{StopsWithin, SessionEnds};
ghost use Rattle.station_sessions.specs.Stopping.{CountsStop, StopsSo, end_of};

use crate::station::{Setting, Station};
use call_text::{CutObject, CutPart};
use cut_room::Room;
use edit_journal::{Naming, Pass};
use line_words::{LineEnd, LineReader};
use room_keepers::{KeepFault, Keeping};
use room_ports::{Gate, Line, Sink};
use std::alloc::Global;
use std::sync::Wait;

/// How a session ended.
#[derive(Clone, Copy, Debug, PartialEq, Eq)]
pub enum End {
    /// The input was read to its end, and each of its lines was answered.
    Ended,
    /// A read failed.
    ReadFault,
    /// A write failed.
    WriteFault,
    /// The input gave more than 64 MiB.
    TooMuchInput,
    /// The disk failed on which the room's journal is kept. The last line has no reply; where it is an edit, it may stand
    /// in the journal.
    DiskFault,
    /// There was no memory to keep the journal. The last line has no reply; where it is an edit, it may stand in the
    /// journal.
    KeepMemory,
}

/// A session that has ended: the station's pass, which knows what the last of its answers told of, how it ended, and what
/// the station took when it last asked for entries to be kept.
pub struct Session<J: Naming<CutObject, CutPart>, T> {
    pub pass: Pass<CutObject, J>,
    pub end: End,
    pub taken: Option<T>,
}

/// The most bytes of one input.
const MOST_INPUT: usize = 67_108_864;

/// The most bytes of one read.
const MOST_READ: usize = 8_192;

// Why a session stopped at a line.
#[derive(Clone, Copy, Debug)]
pub(crate) enum Stop {
    // The reply was not sent whole.
    Unsent,
    // The entries that the reply tells of were not kept.
    Unkept(KeepFault),
}

// How a session ends that stopped so.
fn end_of(stop: Stop) -> End
    ensures { result ≡ end_of stop }
{
    match stop {
        Stop::Unsent => End::WriteFault,
        Stop::Unkept(KeepFault::Disk) => End::DiskFault,
        Stop::Unkept(KeepFault::Memory) => End::KeepMemory,
    }
}

// Answers a line that has ended, once the entries that the reply tells of are kept. What the room keeps for later is kept
// once the reply was sent.
fn answer_line<R: Wait, G: Gate, J: Naming<CutObject, CutPart>, P: Keeping<CutObject, J>, K: Sink>(
    session: &mut Station<'_, R, G, J, P>,
    end: LineEnd,
    text: &[u8],
    output: &mut K,
) -> Result<(), Stop>
    requires { session.old.course.line + 1 < 2 ^ 32 }

    ensures ok { OnOk result (ServesTo session.old session.new (line_told end text.now ∷ [])
        (AreSent (K.taken output.old) (K.taken output.new))) }
    ensures stop { IfErr result (λ stop. StopsSo P.may_fail session.old session.new []
        (line_told end text.now) (K.taken output.old) (K.taken output.new) stop) }
    ensures number { session.new.course.line ≡ session.old.course.line + 1 }
    ensures station { session.new.station ≡ session.old.station }

    ensures counts { IfErr result (λ stop. CountsStop stop (K.write_faults output.old)
        (K.write_faults output.new)) }
    ensures quiet { OnOk result (K.write_faults output.new ≡ K.write_faults output.old) }
    ensures apart { K.as_source output.new ≡ K.as_source output.old }
{
    let (reply, tells) = session.answer(end, text);
    match session.hold(tells) {
        Ok(()) => {}
        Err(fault) => return Err(Stop::Unkept(fault)),
    }
    match reply.send(output) {
        Ok(()) => {
            session.keep_cut();
            Ok(())
        }
        Err(_) => Err(Stop::Unsent),
    }
}

// Answers the lines that end within a piece.
fn answer_piece<R: Wait, G: Gate, J: Naming<CutObject, CutPart>, P: Keeping<CutObject, J>, K: Sink>(
    reader: &mut LineReader,
    session: &mut Station<'_, R, G, J, P>,
    piece: &[u8],
    output: &mut K,
) -> Result<(), Stop>
    requires { session.old.course.line + length piece.now < 2 ^ 32 }

    ensures ok { OnOk result (ServesTo session.old session.new (ended reader.old.pending piece.now)
        (AreSent (K.taken output.old) (K.taken output.new))) }
    ensures stop { IfErr result (λ stop. (before : List InputLine) × (line : InputLine)
        × StopsWithin reader.old.pending piece.now before line
        × StopsSo P.may_fail session.old session.new before line
        (K.taken output.old) (K.taken output.new) stop) }
    ensures pending { OnOk result (reader.new.pending
        ≡ pending_after reader.old.pending piece.now) }
    ensures number { session.new.course.line ≤ session.old.course.line + length piece.now }
    ensures station { session.new.station ≡ session.old.station }

    ensures counts { IfErr result (λ stop. CountsStop stop (K.write_faults output.old)
        (K.write_faults output.new)) }
    ensures quiet { OnOk result (K.write_faults output.new ≡ K.write_faults output.old) }
    ensures apart { K.as_source output.new ≡ K.as_source output.old }
{
    let mut at = 0;
    while at < piece.len() {
        let (_, rest) = piece.split_at(at);
        let fed = reader.feed(rest);
        at += fed.taken;
        match fed.line {
            Some(end) => match answer_line(session, end, reader.line(), output) {
                Ok(()) => {}
                Err(stop) => return Err(stop),
            },
            None => {}
        }
    }
    Ok(())
}

// Answers a last line without a line feed.
fn finish<R: Wait, G: Gate, J: Naming<CutObject, CutPart>, P: Keeping<CutObject, J>, K: Sink>(
    reader: &mut LineReader,
    session: &mut Station<'_, R, G, J, P>,
    output: &mut K,
) -> Result<(), Stop>
    requires { session.old.course.line + 1 < 2 ^ 32 }

    ensures ok { OnOk result (ServesTo session.old session.new (last_line reader.old.pending)
        (AreSent (K.taken output.old) (K.taken output.new))) }
    ensures stop { IfErr result (λ stop. (line : InputLine)
        × (last_line reader.old.pending ≡ line ∷ [])
        × StopsSo P.may_fail session.old session.new [] line
        (K.taken output.old) (K.taken output.new) stop) }
    ensures station { session.new.station ≡ session.old.station }

    ensures counts { IfErr result (λ stop. CountsStop stop (K.write_faults output.old)
        (K.write_faults output.new)) }
    ensures quiet { OnOk result (K.write_faults output.new ≡ K.write_faults output.old) }
    ensures apart { K.as_source output.new ≡ K.as_source output.old }
{
    match reader.finish() {
        Some(end) => answer_line(session, end, reader.line(), output),
        None => Ok(()),
    }
}

/// Answers each line of an input, in order, until the input's end, a fault, or more than 64 MiB.
fn serve<R: Wait, G: Gate, J: Naming<CutObject, CutPart>, P: Keeping<CutObject, J>, L: Line>(
    session: &mut Station<'_, R, G, J, P>,
    line: &mut L,
) -> End
    requires { session.old.course.line + most_input + 1 < 2 ^ 32 }

    ensures ends { SessionEnds (ServesTo session.old session.new) (BreaksTo session.old session.new)
        (λ fault. P.may_fail fault × IsCounted fault session.new.failures)
        (outside (L.left line.old) (L.read_faults line.old) (L.taken line.old)
        (L.write_faults line.old))
        (outside (L.left line.new) (L.read_faults line.new) (L.taken line.new)
        (L.write_faults line.new)) result }
    ensures station { session.new.station ≡ session.old.station }
    ensures written { StaysWritten session.old session.new }
    ensures lent { L.lent line.new ≡ L.lent line.old }
{
    let mut reader = LineReader::new();
    let mut buffer = [0; MOST_READ];
    let mut total = 0;
    while total <= MOST_INPUT {
        let n = match line.read(&mut buffer) {
            Ok(n) => n,
            Err(_) => return End::ReadFault,
        };
        if n == 0 {
            return match finish(&mut reader, session, line) {
                Ok(()) => End::Ended,
                Err(stop) => end_of(stop),
            };
        }
        let fits = n.min(MOST_INPUT - total);
        let (piece, _) = buffer.split_at(fits);
        match answer_piece(&mut reader, session, piece, line) {
            Ok(()) => {}
            Err(stop) => return end_of(stop),
        }
        if fits < n {
            return End::TooMuchInput;
        }
        total += n;
    }
    unreachable!()
}

/// The session of a station over a line, from the line's first byte to its end, a fault, or more than 64 MiB. The lines
/// are numbered behind the last number of the station's own entries, so a room may have been opened on a journal that was
/// kept.
///
/// No reply is sent before the entries that it tells of are kept, by `keeper`, whose word for it the session goes away
/// with. Where they could not be kept the session ends without that reply.
pub fn serve_session<
    R: Wait,
    G: Gate,
    J: Naming<CutObject, CutPart>,
    P: Keeping<CutObject, J>,
    L: Line,
>(
    rt: &R,
    alloc: Global,
    room: &Room<CutObject, J>,
    gate: &G,
    keeper: &P,
    pass: Pass<CutObject, J>,
    setting: Setting,
    line: &mut L,
) -> Session<J, P::Taken>
    requires room { J.opening ≡ Some (room.now.object, room.now.parts) }
    requires legal { IsLegalThere room.now pass.entries }
    requires base { last_of pass.number pass.entries ≤ most_base }

    ensures ends { (o : OpeningOf) (from : Origin)
        → IsRoomOf o room.now setting.counting setting.start → IsOrigin from pass
        → from.kept ≤ P.upto None
        → SessionEnds (Knows o from pass.number result.pass.entries (P.upto result.taken))
        (KnowsBut o from pass.number result.pass.entries (P.upto result.taken))
        (λ fault. P.may_fail fault × IsCounted fault (P.failures result.taken))
        (outside (L.left line.old) (L.read_faults line.old) (L.taken line.old)
        (L.write_faults line.old))
        (outside (L.left line.new) (L.read_faults line.new) (L.taken line.new)
        (L.write_faults line.new)) result.end }
    ensures station { result.pass.number ≡ pass.number }
    ensures written { AreWritten (of_station pass.number pass.entries)
        → AreWritten (of_station pass.number result.pass.entries) }
    ensures lent { L.lent line.new ≡ L.lent line.old }
{
    let line_number = pass.last() + 1;
    let mut station = Station {
        rt,
        alloc,
        room,
        gate,
        keeper,
        pass: Some(pass),
        taken: None,
        counting: setting.counting,
        start: setting.start,
        line: line_number,
        has_more: false,
    };
    let end = serve(&mut station, line);
    let (pass, taken) = station.into_parts();
    Session { pass, end, taken }
}
