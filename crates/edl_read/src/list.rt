// A list, read.
ghost use Rattle.std.specs.Prelude.{◌≡◌, ◌≤◌, ◌++◌, ◌∷◌, [], IfErr, IfOk, length};
ghost use Rattle.edl_events.specs.Events.{IsEvent};
ghost use Rattle.edl_read.specs.Reading.{list_read};
ghost use Rattle.edl_read.specs.ReadLists.{CanBeRead, IsFaultOf};

use crate::played::Played;
use crate::reading::{after_line, at_end, first_reading};
use crate::{Event, ListReadFault, Memory};
use edl_lines::first_line;
use std::alloc::Global;
use std::marker::Model;
use std::slice::from_ref;
use timecode12::SequenceRate;

/// The most bytes of a list: 32 MiB.
pub const MAX_LIST: usize = 33_554_432;

/// The events of an edit decision list, in the order of their lines. Contracts see them as a list.
#[derive(Drop)]
pub struct List {
    events: Vec<Event>,
}

impl Model for List {
    ghost use Rattle.std.specs.Prelude.{List};
    ghost use Rattle.edl_events.specs.declared.event.Event.{Event};

    ghost Value = { List Event };

    ghost view = { λ l. l.events.items };
}

impl List {
    /// A list without events.
    pub(crate) fn new(alloc: Global) -> List
        ensures { result ≡ [] }
    {
        List {
            events: Vec::new(alloc),
        }
    }

    // Adds an event after the others.
    pub(crate) fn with(self, event: &Event) -> Result<List, Memory>
        requires { IsEvent event.now }
        ensures { IfOk result (λ list. list ≡ self ++ event.now ∷ []) }
    {
        let List { mut events } = self;
        events.extend_from_slice(from_ref(event))?;
        Ok(List { events })
    }

    /// The events, in the order of their lines.
    pub fn as_slice(&self) -> &[Event]
        ensures { result.now ≡ self.now }
    {
        self.events.as_slice()
    }
}

/// The list that these bytes are, counted at a rate: its events, or its first fault with the line that tells it.
///
/// A dissolve is one event, with the line of its second line. Source and record times are frames of the day.
pub fn read_list(alloc: Global, bytes: &[u8], rate: SequenceRate) -> Result<List, ListReadFault>
    requires { length bytes.now ≤ MAX_LIST }
    ensures read { IfOk result (λ list. list_read rate bytes.now ≡ Ok list) }
    ensures refused { IfErr result (λ fault. IsFaultOf (list_read rate bytes.now) fault) }
    ensures apart { IfOk result (λ list. CanBeRead list) }
{
    let played = lines_read(alloc, bytes, rate)?;
    Ok(played.into_list())
}

// The events of these lines, read one after another, or the first fault.
fn lines_read(alloc: Global, bytes: &[u8], rate: SequenceRate) -> Result<Played, ListReadFault>
    requires { length bytes.now ≤ MAX_LIST }
    ensures read { IfOk result (λ list. list_read rate bytes.now ≡ Ok list) }
    ensures refused { IfErr result (λ fault. IsFaultOf (list_read rate bytes.now) fault) }
{
    let mut reading = first_reading(alloc, rate);
    let mut line = 1;
    let mut rest = Some(bytes);
    while let Some(left) = rest {
        let (text, end, more) = first_line(left);
        reading = after_line(rate, line, reading, text, end)?;
        line += 1;
        rest = more;
    }
    at_end(reading)
}
