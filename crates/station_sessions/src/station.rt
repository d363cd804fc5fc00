// The session of one station in a room, and the answer to each of its lines.
ghost use Rattle.std.specs.Prelude.{◌≡◌, ◌<◌, ◌≤◌, ◌⊎◌, IfOk, IsSome, IsSomeAnd, Some};
ghost use Rattle.cut_steps.specs.CutSteps.{stepping};
ghost use Rattle.reply_text.specs.Sights.{sight_text_of};
ghost use Rattle.cut_room.specs.Rooms.{Edited};
ghost use Rattle.edit_journal.specs.Turns.{last_of};
ghost use Rattle.station_sessions.specs.Session.{IsSightReply, IsWithin, answer_tells, sight_tells};

use crate::document_reply::cut_reply;
use crate::news_reply::news_reply;
use call_text::{
    CutCall, CutObject, CutPart, Line, LineFault, answer_text, fault_text, point_text, read_line,
    sight_text,
};
use composables::Memory;
use cut_room::{Answer, KEPT_EVERY, Room, Sight};
use edit_apply::Ask;
use edit_journal::{Naming, Pass};
use line_words::LineEnd;
use reply_text::Reply;
use room_keepers::{KeepFault, Keeping};
use room_ports::Gate;
use std::alloc::Global;
use std::marker::{Brand, Model};
use std::sync::Wait;
use std::sync::ledger::{Blank, Ledger};
use step_count::Steps;
use timecode12::Counting;

/// How a room counts frames, and the frame at which its record starts.
#[derive(Clone, Copy, Debug)]
pub struct Setting {
    pub counting: Counting,
    pub start: u32,
}

/// A station in a room. Contracts see the room's setting, the station's number, what it knows of the journal and of what
/// keeps it, and the number of its next line. It notes whether its last edit was the last of a stretch of the journal.
pub(crate) struct Station<'a, R, G, J: Naming<CutObject, CutPart>, P: Keeping<CutObject, J>> {
    pub(crate) rt: &'a R,
    pub(crate) alloc: Global,
    pub(crate) room: &'a Room<CutObject, J>,
    pub(crate) gate: &'a G,
    pub(crate) keeper: &'a P,
    pub(crate) pass: Option<Pass<CutObject, J>>,
    pub(crate) taken: Option<P::Taken>,
    pub(crate) counting: Counting,
    pub(crate) start: u32,
    pub(crate) line: u32,
    pub(crate) has_more: bool,
}

impl<'a, R, G, J: Naming<CutObject, CutPart>, P: Keeping<CutObject, J>> Model
    for Station<'a, R, G, J, P> {
    ghost use Rattle.std.specs.Prelude.{◌≡◌, Some};
    ghost use Rattle.station_sessions.specs.Session.{StationState};
    ghost use Rattle.station_sessions.specs.SessionInside.{session_at, IsSession};

    ghost Value = { StationState };

    ghost view = { λ s. session_at s.room.now s.pass s.counting s.start
        (record { held = P.upto s.taken; failures = P.failures s.taken }) s.line };

    ghost invariant = { λ s. IsSession s.room.now s.line s.pass
        × (J.opening ≡ Some (s.room.now.object, s.room.now.parts)) };
}

// The point that is told where there are so many entries, of which so many are kept.
fn told_point(entries: u32, kept: Option<u64>) -> u32
    ensures within { result ≤ entries }
    ensures kept { (result ≡ entries) ⊎ IsSomeAnd kept (λ k. k ≡ result) }
{
    match kept {
        Some(kept) if kept < u64::from(entries) => kept as u32,
        _ => entries,
    }
}

impl<'a, R: Wait, G: Gate, J: Naming<CutObject, CutPart>, P: Keeping<CutObject, J>> Station<
    'a,
    R,
    G,
    J,
    P,
> {
    ghost use Rattle.std.specs.Prelude.{◌≡◌, ◌+◌, ◌<◌, ◌≤◌, ◌^◌, ◌++◌, IfErr, IfOk, OnOk, codes, length};
    ghost use Rattle.room_keepers.specs.Faults.{IsCounted};
    ghost use Rattle.line_words.specs.Told.{line_told};
    ghost use Rattle.line_table.specs.CallTexts.{IsWrittenStep, NamesWritten};
    ghost use Rattle.reply_text.specs.Replies.{fault_of};
    ghost use Rattle.station_sessions.specs.Rooms.{wish_in};
    ghost use Rattle.station_sessions.specs.Session.{HasGrown, HasHeld, IsMeant, RepliesTo, RepliesWith};
    ghost use Rattle.station_sessions.specs.Transcript.{Bad, Do, News, Point, See, Write};
    ghost use Rattle.take_back.specs.Steps.{asked_by};

    /// The station's pass, and what it took when it last asked for entries to be kept.
    pub(crate) fn into_parts(self) -> (Pass<CutObject, J>, Option<P::Taken>)
        ensures entries { result.0.entries ≡ self.entry.course.journal }
        ensures number { result.0.number ≡ self.entry.station }
        ensures held { P.upto result.1 ≡ self.entry.course.held }
        ensures failures { P.failures result.1 ≡ self.entry.failures }
    {
        let Station {
            rt: _,
            alloc: _,
            room: _,
            gate: _,
            keeper: _,
            pass,
            taken,
            counting: _,
            start: _,
            line: _,
            has_more: _,
        } = self;
        match pass {
            Some(pass) => (pass, taken),
            None => unreachable!(),
        }
    }

    /// What a line of the input says, or its fault.
    fn meaning_of(&self, end: LineEnd, text: &[u8]) -> Result<Line, LineFault>
        ensures meant { IsMeant self.now.setting (line_told end text.now) result }
        ensures written { IfOk result (λ line. NamesWritten line) }
    {
        match end {
            LineEnd::Whole => read_line(self.alloc, text, &self.counting, self.start),
            LineEnd::TooLong => Err(LineFault::B5),
        }
    }

    // The reply to an edit, or to the taking back of one, which the station itself asks for.
    fn reply_to_edit(&mut self, step: CutCall) -> (Reply, u32)
        requires written { IsWrittenStep step }
        requires line { self.old.course.line + 1 < 2 ^ 32 }
        ensures { RepliesWith self.old self.new (Do (asked_by self.old.station step))
            result.0 result.1 }
    {
        let pass = taken(&mut self.pass);
        let call = step.asked_by(pass.station());
        let (rt, room, gate) = (self.rt, self.room, self.gate);
        let (pass, answer) = edit_uncounted(rt, self.alloc, room, gate, pass, self.line, call);
        self.pass = Some(pass);
        self.line += 1;
        self.has_more = ends_a_stretch(&answer);
        (Reply::short(answer_text(&answer)), told_by_answer(&answer))
    }

    /// Has the room keep its cut, where the last line's edit was the last of a stretch. A later wish for a document begins
    /// there.
    pub(crate) fn keep_cut(&mut self)
        ensures { HasGrown self.old self.new }
    {
        if !self.has_more {
            return;
        }
        self.has_more = false;
        let pass = taken(&mut self.pass);
        let pass = self.room.keep_cut(self.rt, self.alloc, pass);
        self.pass = Some(pass);
    }

    /// Has the entries before a point kept, where they are not known to be. A reply that tells of them waits for that.
    pub(crate) fn hold(&mut self, n: u32) -> Result<(), KeepFault>
        requires { n ≤ 100000 }
        ensures held { OnOk result (n ≤ self.new.course.held) }
        ensures same { HasHeld self.old self.new }
        ensures fault { IfErr result
            (λ fault. P.may_fail fault × IsCounted fault self.new.failures) }
    {
        if self.keeper.is_kept(&self.taken, n) {
            return Ok(());
        }
        self.keeper
            .keep(self.rt, self.alloc, self.room, n, &mut self.taken)
    }

    fn reply_to_ask(&mut self, ask: &Ask) -> (Reply, u32)
        requires { self.old.course.line + 1 < 2 ^ 32 }
        ensures { RepliesWith self.old self.new (See ask.now) result.0 result.1 }
    {
        let pass = taken(&mut self.pass);
        let (pass, sight) = self.room.see(self.rt, self.alloc, pass, ask);
        self.pass = Some(pass);
        self.line += 1;
        sight_reply(self.alloc, &sight)
    }

    // The point is how many entries are kept, where that is told: those that come after are promised to nobody yet. So the
    // reply waits for no disk.
    fn reply_to_point(&mut self) -> (Reply, u32)
        requires { self.old.course.line + 1 < 2 ^ 32 }
        ensures { RepliesWith self.old self.new Point result.0 result.1 }
    {
        let kept = self.keeper.look(&mut self.taken);
        let pass = taken(&mut self.pass);
        let (pass, entries) = self.room.point(self.rt, pass);
        self.pass = Some(pass);
        self.line += 1;
        let point = told_point(entries, kept);
        (Reply::short(point_text(point)), point)
    }

    // The reply with the document of the cut after `n` entries.
    fn reply_to_otio(&mut self, n: u32) -> (Reply, u32)
        requires { self.old.course.line + 1 < 2 ^ 32 }
        ensures { RepliesWith self.old self.new (Write n) result.0 result.1 }
    {
        let pass = taken(&mut self.pass);
        let (pass, cut) = self.room.cut_at(self.rt, self.alloc, pass, n);
        self.pass = Some(pass);
        self.line += 1;
        let object = self.room.object();
        cut_reply(self.alloc, n, object, cut, &self.counting, self.start)
    }

    // The reply with the entry at a place.
    fn reply_to_news(&mut self, n: u32) -> (Reply, u32)
        requires { self.old.course.line + 1 < 2 ^ 32 }
        ensures { RepliesWith self.old self.new (News n) result.0 result.1 }
    {
        let pass = taken(&mut self.pass);
        let (pass, found) = self.room.entries(self.rt, self.alloc, pass, n, 1);
        self.pass = Some(pass);
        self.line += 1;
        news_reply(self.alloc, n, found)
    }

    // The reply to a line that is none of the table.
    fn reply_to_none(&mut self, fault: &LineFault) -> (Reply, u32)
        requires { self.old.course.line + 1 < 2 ^ 32 }
        ensures { RepliesWith self.old self.new (Bad (fault_of fault.now)) result.0 result.1 }
    {
        self.line += 1;
        (Reply::short(fault_text(fault)), 0)
    }

    /// The reply to a line, and how many entries it tells of; the line is committed where it is an edit that applies. The
    /// next line has the next number.
    pub(crate) fn answer(&mut self, end: LineEnd, text: &[u8]) -> (Reply, u32)
        requires { self.old.course.line + 1 < 2 ^ 32 }
        ensures { RepliesTo self.old self.new (line_told end text.now) result.0 result.1 }
    {
        let read = self.meaning_of(end, text);
        self.reply_to(read)
    }

    // The reply to what a line was read as.
    fn reply_to(&mut self, read: Result<Line, LineFault>) -> (Reply, u32)
        requires written { IfOk read (λ line. NamesWritten line) }
        requires line { self.old.course.line + 1 < 2 ^ 32 }
        ensures { RepliesWith self.old self.new (wish_in self.old.station read) result.0 result.1 }
    {
        match read {
            Ok(line) => match line {
                Line::Edit(step) => self.reply_to_edit(step),
                Line::Ask(ask) => self.reply_to_ask(&ask),
                Line::Point => self.reply_to_point(),
                Line::Otio(n) => self.reply_to_otio(n),
                Line::News(n) => self.reply_to_news(n),
            },
            Err(fault) => self.reply_to_none(&fault),
        }
    }
}

// The pass of a station that has it, until it is put back.
fn taken<J: Naming<CutObject, CutPart>>(pass: &mut Option<Pass<CutObject, J>>) -> Pass<CutObject, J>
    requires { IsSome pass.old }
    ensures { pass.old ≡ Some result }
{
    match pass.take() {
        Some(pass) => pass,
        None => unreachable!(),
    }
}

fn edit_counted<R: Wait, G: Gate, J: Naming<CutObject, CutPart>, L: Ledger>(
    ledger: Blank,
    rt: &R,
    alloc: Global,
    room: &Room<CutObject, J>,
    gate: &G,
    pass: Pass<CutObject, J>,
    number: u32,
    call: CutCall,
) -> (Pass<CutObject, J>, Answer<CutObject>)
    requires ledger { (ledger.name ≡ L.name) × (ledger.parts ≡ L.parts) × (0 < ledger.parts) }
    requires number { last_of pass.number pass.entries < number }
    ensures { Edited (stepping room.now.object.object.table) room.now.parts
        (record { station = pass.number; number = number; call = call }) pass result.0 result.1 }
{
    let mut steps = Steps::<L>::new(ledger);
    room.edit(rt, alloc, pass, number, call, gate, &mut steps)
}

// An edit of the room under a number, which counts no steps.
fn edit_uncounted<R: Wait, G: Gate, J: Naming<CutObject, CutPart>>(
    rt: &R,
    alloc: Global,
    room: &Room<CutObject, J>,
    gate: &G,
    pass: Pass<CutObject, J>,
    number: u32,
    call: CutCall,
) -> (Pass<CutObject, J>, Answer<CutObject>)
    requires { last_of pass.number pass.entries < number }
    ensures { Edited (stepping room.now.object.object.table) room.now.parts
        (record { station = pass.number; number = number; call = call }) pass result.0 result.1 }
{
    edit_counted::<R, G, J, Brand>(Blank::new(1), rt, alloc, room, gate, pass, number, call)
}

// How many entries the reply to an edit tells of.
fn told_by_answer(answer: &Answer<CutObject>) -> u32
    requires { IsWithin answer.now }
    ensures { result ≡ answer_tells answer.now }
{
    match answer {
        Answer::Done { point, .. } => *point + 1,
        Answer::Refused { point, .. } => *point,
        Answer::Full { point } => *point,
        Answer::Memory => 0,
    }
}

// How many entries the reply to a question tells of.
fn told_by_sight(sight: &Sight<CutObject>) -> u32
    ensures { result ≡ sight_tells sight.now }
{
    match sight {
        Sight::Seen { point, .. } => *point,
        Sight::Refused { point, .. } => *point,
        Sight::Memory => 0,
    }
}

// Whether an edit was the last of so many as the journal gains from one cut that is kept to the next.
fn ends_a_stretch(answer: &Answer<CutObject>) -> bool {
    match answer {
        Answer::Done { point, .. } => point % KEPT_EVERY == KEPT_EVERY - 1,
        _ => false,
    }
}

// The reply to a question, or to one for whose reply there is no memory, and how many entries it tells of.
fn sight_reply(alloc: Global, sight: &Sight<CutObject>) -> (Reply, u32)
    ensures { IsSightReply sight.now result.0 result.1 }
{
    match long_sight(alloc, sight) {
        Ok(reply) => (reply, told_by_sight(sight)),
        Err(_) => (Reply::short(answer_text(&Answer::Memory)), 0),
    }
}

// The reply to a question, as a longer text.
fn long_sight(alloc: Global, sight: &Sight<CutObject>) -> Result<Reply, Memory>
    ensures { IfOk result (λ reply. reply ≡ sight_text_of sight.now) }
{
    Reply::long(sight_text(alloc, sight)?)
}
