// What a station asks for.
ghost use Rattle.std.specs.Prelude.{◌≡◌};
ghost use Rattle.take_back.specs.Steps.{asked_by};

/// What a station asks for, and which station asks.
#[derive(Debug, Drop, PartialEq, Eq)]
pub struct Step<C> {
    /// The station that asks.
    pub by: u32,
    /// What it asks for.
    pub act: Deed<C>,
}

/// A call to be done, or the last call on these parts to be taken back. The parts are a set, bit n for the part n, and
/// at least one.
#[derive(Debug, Drop, PartialEq, Eq)]
pub enum Deed<C> {
    /// This call is to be done.
    Do(C),
    /// The last call on these parts is to be taken back.
    Back { tracks: u32 },
}

impl<C> Step<C> {
    /// The same, asked for by this station.
    pub fn asked_by(self, station: u32) -> Step<C>
        ensures { result ≡ asked_by station self }
    {
        Step {
            by: station,
            act: self.act,
        }
    }
}
