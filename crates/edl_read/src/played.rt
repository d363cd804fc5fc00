// The events of a list so far.
ghost use Rattle.std.specs.Prelude.{◌≡◌, [], IfErr, IfOk};
ghost use Rattle.edl_events.specs.Events.{IsEvent};
ghost use Rattle.edl_read.specs.Reading.{with_event};
ghost use Rattle.edl_read.specs.ReadLists.{CanBeRead, IsFaultOf};

use crate::laid::Laid;
use crate::list::List;
use crate::{Event, LineCode, ListReadFault};
use std::alloc::Global;
use std::marker::Model;

/// Events of which no two overlap. Contracts see them as a list.
#[derive(Drop)]
pub(crate) struct Played {
    laid: Laid,
}

impl Model for Played {
    ghost use Rattle.std.specs.Prelude.{List};
    ghost use Rattle.edl_events.specs.declared.event.Event.{Event};

    ghost Value = { List Event };

    ghost view = { λ p. p.laid };
}

impl Played {
    /// No events.
    pub(crate) fn new(alloc: Global) -> Played
        ensures { result ≡ [] }
    {
        Played {
            laid: Laid::new(alloc),
        }
    }

    // Adds an event, or tells by P10 that it overlaps, with the line of the first that it overlaps with.
    pub(crate) fn with(self, event: &Event) -> Result<Played, ListReadFault>
        requires { IsEvent event.now }
        ensures read { IfOk result (λ p. with_event self event.now ≡ Ok p) }
        ensures fault { IfErr result (λ fault. IsFaultOf (with_event self event.now) fault) }
    {
        let Played { laid } = self;
        match laid.first_overlap(event) {
            Some(other) => Err(ListReadFault::Refused {
                code: LineCode::P10,
                line: event.line,
                other,
            }),
            None => {
                let laid = laid.with(event)?;
                Ok(Played { laid })
            }
        }
    }

    /// The events as a list.
    pub(crate) fn into_list(self) -> List
        ensures events { result ≡ self }
        ensures read { CanBeRead self }
    {
        let Played { laid } = self;
        laid.into_list()
    }
}
