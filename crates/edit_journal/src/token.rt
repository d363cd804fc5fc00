// Tokens: a seat for each part, and a pass for each station.
ghost use Rattle.std.specs.Prelude.{◌≡◌};
ghost use Rattle.edit_journal.specs.Turns.{last_of};

use crate::Naming;
use crate::seats::Token;
use room_core::PartObject;
use std::marker::{Model, PhantomData};

/// The seat of a part. An entry whose call names the part is added only in a turn that gathered it. Contracts see the
/// part's number, the journal's opening, and the entries that were there when the seat was given out.
#[derive(Drop)]
pub struct PartSeat<O: PartObject, J: Naming<O, O::Part>> {
    pub(crate) part: u32,
    pub(crate) token: Token<O>,
    // Which journal it is of.
    pub(crate) of: PhantomData<J>,
}

impl<O: PartObject, J: Naming<O, O::Part>> Model for PartSeat<O, J> {
    ghost use Rattle.std.specs.Prelude.{◌≡◌, IsSome, [], ◌∷◌};
    ghost use Rattle.edit_journal.specs.declared.name.Name.TheVariants.{Part};
    ghost use Rattle.edit_journal.specs.Seats.{bearer};
    ghost use Rattle.edit_journal.specs.Turns.{Known};

    ghost Value = { Known O O.Part O.Call };

    ghost view = { λ t. record {
      number = t.part;
      opening = t.token.me.0.opening;
      entries = t.token.me.0.entries;
    } };

    ghost invariant = { λ t. (t.token.table_id ≡ J.table) × IsSome J.opening
        × (t.token.me ≡ (bearer J.opening (Part t.part ∷ []) t.token.me.0.entries, [])) };
}

impl<O: PartObject, J: Naming<O, O::Part>> PartSeat<O, J> {
    /// The number of its part.
    pub fn part(&self) -> u32
        ensures number { result ≡ self.now.number }
        ensures opening { self.now.opening ≡ J.opening }
    {
        self.part
    }
}

/// The pass of a station. An entry of the station is added only in a turn that gathered it. Contracts see the station's
/// number, the journal's opening, and the entries that were there when the pass was given out.
#[derive(Drop)]
pub struct Pass<O: PartObject, J: Naming<O, O::Part>> {
    pub(crate) station: u32,
    // The greatest number of the station's own entries.
    pub(crate) last: u32,
    pub(crate) token: Token<O>,
    // Which journal it is of.
    pub(crate) of: PhantomData<J>,
}

impl<O: PartObject, J: Naming<O, O::Part>> Model for Pass<O, J> {
    ghost use Rattle.std.specs.Prelude.{◌≡◌, ◌<◌, IsSome, [], ◌∷◌};
    ghost use Rattle.edit_journal.specs.declared.name.Name.TheVariants.{Station};
    ghost use Rattle.edit_journal.specs.Seats.{bearer};
    ghost use Rattle.edit_journal.specs.Turns.{Known, last_of};

    ghost Value = { Known O O.Part O.Call };

    ghost view = { λ t. record {
      number = t.station;
      opening = t.token.me.0.opening;
      entries = t.token.me.0.entries;
    } };

    ghost invariant = { λ t. (t.token.table_id ≡ J.table) × IsSome J.opening
        × (t.token.me ≡ (bearer J.opening (Station t.station ∷ []) t.token.me.0.entries, []))
        × (t.station < J.stations) × (t.last ≡ last_of t.station t.token.me.0.entries) };
}

impl<O: PartObject, J: Naming<O, O::Part>> Pass<O, J> {
    /// The number of its station.
    pub fn station(&self) -> u32
        ensures number { result ≡ self.now.number }
        ensures opening { self.now.opening ≡ J.opening }
    {
        self.station
    }

    /// The greatest number of the station's own entries, 0 before the first.
    pub fn last(&self) -> u32
        ensures { result ≡ last_of self.now.number self.now.entries }
    {
        self.last
    }
}
