// The journal.
ghost use Rattle.std.specs.Prelude.{◌≡◌, ◌<◌, ℕ, [], All, Some, IfOk, OnOk};
ghost use Rattle.edit_journal.specs.declared.name.Name.TheVariants.{Part, Station};
ghost use Rattle.edit_journal.specs.Seats.{In};
ghost use Rattle.edit_journal.specs.Turns.{IsJournal, AreFresh, StandsIn};

use crate::log::Log;
use crate::seats::{Token, Words, open};
use crate::{Beginning, Naming, PartSeat, Pass, Turn};
use room_core::{Entry, Memory, PartObject};
use std::alloc::Global;
use std::marker::{Model, PhantomData};
use std::sync::{Mutex, Wait};

/// A new table of an opening, a count of parts and one of stations, of which no journal is made yet.
#[derive(Drop)]
pub struct Blank<O: PartObject> {
    words: Words<O>,
    seat: Token<O>,
    lasts: Vec<u32>,
    parts: u32,
    stations: u32,
}

impl<O: PartObject> Model for Blank<O> {
    ghost use Rattle.std.specs.Prelude.{◌≡◌, Some, [], replicate};
    ghost use Rattle.edit_journal.specs.Seats.{Opening, keeper, all_names};
    ghost use Rattle.edit_journal.specs.Turns.{Fresh};

    ghost Value = { Fresh O O.Part };

    ghost view = { λ b. record {
      table = b.words.shared.table_id;
      opening = b.seat.me.0.opening;
      parts = b.parts;
      stations = b.stations;
    } };

    ghost invariant = { λ b. (b.words.shared.table_id.words ≡ 1)
        × (b.seat.table_id ≡ b.words.shared.table_id)
        × (b.lasts.items ≡ replicate b.stations 0)
        × ((o : Opening O O.Part) × O.opens o.0 o.1
        × (b.seat.me ≡ (keeper (Some o) (all_names b.parts b.stations) [], []))) };
}

impl<O: PartObject> Blank<O> {
    /// A new table for a journal with this opening, and with so many parts and stations.
    pub fn new(alloc: Global, beginning: &Beginning<O>) -> Result<Blank<O>, Memory>
        requires some { (0 < beginning.now.part_count) × (0 < beginning.now.station_count) }
        requires opens { O.opens beginning.now.object beginning.now.parts.items }
        ensures opening { IfOk result (λ b. b.opening
            ≡ Some (beginning.now.object, beginning.now.parts.items)) }
        ensures counts { IfOk result (λ b. (b.parts ≡ beginning.now.part_count)
            × (b.stations ≡ beginning.now.station_count)) }
    {
        let lasts = Vec::from_elem(alloc, 0, beginning.station_count as usize)?;
        let (words, seat) = open(alloc, beginning)?;
        Ok(Blank {
            words,
            seat,
            lasts,
            parts: beginning.part_count,
            stations: beginning.station_count,
        })
    }
}

/// A journal: entries behind a lock.
#[derive(Drop)]
pub struct Journal<O: PartObject, J: Naming<O, O::Part>> {
    log: Mutex<Log<O, J>>,
    words: Words<O>,
    ghost named: { words.shared.table_id ≡ J.table },
    ghost one: { J.table.words ≡ 1 },
}

impl<O: PartObject, J: Naming<O, O::Part>> Journal<O, J> {
    /// Makes the journal of a new table, with a seat for each part and a pass for each station, in ascending order.
    pub fn open(
        alloc: Global,
        blank: Blank<O>,
    ) -> Result<(Journal<O, J>, Vec<PartSeat<O, J>>, Vec<Pass<O, J>>), Memory>
        requires table { J.table ≡ blank.table }
        requires opening { J.opening ≡ blank.opening }
        requires stations { J.stations ≡ blank.stations }
        ensures seats { IfOk result (λ r. AreFresh J.opening blank.parts r.1.items) }
        ensures passes { IfOk result (λ r. AreFresh J.opening blank.stations r.2.items) }
    {
        let Blank {
            words,
            seat,
            lasts,
            parts,
            stations,
        } = blank;
        let mut log = Log {
            entries: Vec::new(alloc),
            lasts,
            keeper: seat,
            of: PhantomData,
        };
        let seats = seats_of(alloc, &mut log, &words, parts)?;
        let passes = passes_of(alloc, &mut log, &words, stations)?;
        let log = Mutex::new(log);
        Ok((Journal { log, words }, seats, passes))
    }

    /// Waits for a turn at the journal. No clause says that it comes.
    pub fn lock<R: Wait>(&self, rt: &R) -> Turn<'_, O, J>
        ensures { result.tokens ≡ 0 }
    {
        Turn {
            log: self.log.lock(rt),
            words: &self.words,
            tokens: 0,
        }
    }

    /// Ends the journal and gives its entries: a legal history of its opening. What each pass that is handed in knew
    /// begins them, and they have no entry of its station that the pass has not. Of a station whose pass is not handed
    /// in no clause says which entries there are.
    pub fn close(self, passes: Vec<Pass<O, J>>) -> Vec<Entry<O::Call>>
        ensures journal { IsJournal O.meaning O.opens J.stations J.opening result.items }
        ensures passes { All (λ p. StandsIn O.meaning J.opening result.items
            (Station p.number) p.entries) passes.items }
    {
        let Journal { log, words } = self;
        let mut log = log.into_inner();
        take_all_back(&mut log, &words, passes);
        let Log {
            entries,
            lasts: _,
            keeper: _,
            of: _,
        } = log;
        entries
    }

    /// Ends the journal as `close` does, with one pass beside the others, so that their list need not grow for it.
    pub fn close_with(self, passes: Vec<Pass<O, J>>, more: Pass<O, J>) -> Vec<Entry<O::Call>>
        ensures journal { IsJournal O.meaning O.opens J.stations J.opening result.items }
        ensures passes { All (λ p. StandsIn O.meaning J.opening result.items
            (Station p.number) p.entries) passes.items }
        ensures more { StandsIn O.meaning J.opening result.items (Station more.number)
            more.entries }
    {
        let Journal { log, words } = self;
        let mut log = log.into_inner();
        take_each_back(&mut log, &words, passes, more);
        let Log {
            entries,
            lasts: _,
            keeper: _,
            of: _,
        } = log;
        entries
    }
}

// A seat for each part, in ascending order, which knows no entry.
fn seats_of<O: PartObject, J: Naming<O, O::Part>>(
    alloc: Global,
    log: &mut Log<O, J>,
    words: &Words<O>,
    parts: u32,
) -> Result<Vec<PartSeat<O, J>>, Memory>
    requires words { (words.now.shared.table_id ≡ J.table) × (J.table.words ≡ 1) }
    requires names { (n : ℕ) → n < parts → In (Part n) log.old.0.names }
    requires empty { (log.old.0.opening ≡ J.opening) × (log.old.0.entries ≡ []) }
    ensures fresh { IfOk result (λ v. AreFresh J.opening parts v.items) }
    ensures stations { OnOk result ((n : ℕ) → In (Station n) log.old.0.names
        → In (Station n) log.new.0.names) }
    ensures empty { OnOk result ((log.new.0.opening ≡ J.opening) × (log.new.0.entries ≡ [])) }
{
    let mut seats = Vec::new(alloc);
    for part in 0..parts {
        seats.push(log.give_seat(words, part))?;
    }
    Ok(seats)
}

// A pass for each station, in ascending order, which knows no entry.
fn passes_of<O: PartObject, J: Naming<O, O::Part>>(
    alloc: Global,
    log: &mut Log<O, J>,
    words: &Words<O>,
    stations: u32,
) -> Result<Vec<Pass<O, J>>, Memory>
    requires words { (words.now.shared.table_id ≡ J.table) × (J.table.words ≡ 1) }
    requires names { (n : ℕ) → n < stations → In (Station n) log.old.0.names }
    requires empty { (log.old.0.opening ≡ J.opening) × (log.old.0.entries ≡ []) }
    ensures fresh { IfOk result (λ v. AreFresh J.opening stations v.items) }
{
    let mut passes = Vec::new(alloc);
    for station in 0..stations {
        passes.push(log.give_pass(words, station))?;
    }
    Ok(passes)
}

// Takes these passes in for good. What each knew begins the journal, which has no entry more of its station.
fn take_all_back<O: PartObject, J: Naming<O, O::Part>>(
    log: &mut Log<O, J>,
    words: &Words<O>,
    passes: Vec<Pass<O, J>>,
)
    requires words { (words.now.shared.table_id ≡ J.table) × (J.table.words ≡ 1) }
    ensures agree { All (λ p. StandsIn O.meaning J.opening log.new.0.entries
        (Station p.number) p.entries) passes.items }
{
    for pass in passes {
        log.take_back(words, pass);
    }
}

// Takes in the passes of a list, and one pass beside them.
fn take_each_back<O: PartObject, J: Naming<O, O::Part>>(
    log: &mut Log<O, J>,
    words: &Words<O>,
    passes: Vec<Pass<O, J>>,
    more: Pass<O, J>,
)
    requires words { (words.now.shared.table_id ≡ J.table) × (J.table.words ≡ 1) }
    ensures agree { All (λ p. StandsIn O.meaning J.opening log.new.0.entries
        (Station p.number) p.entries) passes.items }
    ensures more { StandsIn O.meaning J.opening log.new.0.entries (Station more.number)
        more.entries }
{
    take_all_back(log, words, passes);
    log.take_back(words, more);
}
