// A cutting room of two stations, which send lines.
ghost use Rattle.std.specs.Prelude.{◌≡◌, Some, IfOk, IfSome};
ghost use Rattle.edit_journal.specs.Turns.{AreFresh};
ghost use Rattle.kept_desk.specs.Desks.{IsReader};

use composables::Memory;
use cut_room::{Room, RoomBlank};
use cut_steps::{CutObject, CutPart, fresh_parts};
use edit_apply::Editor;
use edit_journal::{Naming, Pass};
use line_table::{Line, read_line};
use otio_json::Opening;
use room_core::PartObject;
use room_ports::OpenGate;
use std::alloc::Global;
use std::sync::Wait;
use std::sync::ledger::Ledger;
use step_count::Steps;
use take_back::Backed;
use timecode12::{Counting, SequenceRate};

// Two empty tracks and a reel, for two stations and one that stays with the file.
pub fn blank_of(alloc: Global) -> Result<RoomBlank<CutObject>, Memory>
    ensures { IfOk result (λ b. b.stations ≡ 3) }
{
    let Opening {
        table,
        tracks,
        counting: _,
        start: _,
    } = Opening::plain(alloc, 2, 1)?;
    let parts = fresh_parts(alloc, tracks.into_vec())?;
    let object = Backed {
        object: Editor { table },
    };
    RoomBlank::new(alloc, object, parts, 3)
}

// The passes of three stations, of which the last has read nothing and has no entry.
pub fn three_of<J: Naming<CutObject, CutPart>>(
    room: &Room<CutObject, J>,
    passes: Vec<Pass<CutObject, J>>,
) -> Option<(Pass<CutObject, J>, Pass<CutObject, J>, Pass<CutObject, J>)>
    requires fresh { AreFresh J.opening 3 passes.items }
    requires room { J.opening ≡ Some (room.now.object, room.now.parts) }
    ensures { IfSome result (λ r. IsReader ⟦<CutObject as PartObject>⟧.meaning J.opening r.2) }
{
    let _ = room;
    let mut passes = passes;
    let last = passes.pop()?;
    let two = passes.pop()?;
    let one = passes.pop()?;
    Some((one, two, last))
}

// Has a station send a line, under the number that follows its last. A line that says no edit changes nothing.
pub fn send<J: Naming<CutObject, CutPart>, R: Wait, L: Ledger>(
    rt: &R,
    alloc: Global,
    room: &Room<CutObject, J>,
    pass: Pass<CutObject, J>,
    line: &str,
    steps: &mut Steps<L>,
) -> Pass<CutObject, J> {
    let last = pass.last();
    let Some(number) = last.checked_add(1) else {
        return pass;
    };
    let Some(counting) = Counting::new(SequenceRate::F24, false) else {
        return pass;
    };
    match read_line(alloc, line.as_bytes(), &counting, 0) {
        Ok(Line::Edit(call)) => {
            let (pass, _) = room.edit(rt, alloc, pass, number, call, &OpenGate, steps);
            pass
        }
        _ => pass,
    }
}
