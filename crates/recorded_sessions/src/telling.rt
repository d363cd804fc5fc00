// What a reply tells its station.
ghost use Rattle.std.specs.Prelude.{◌≡◌};
ghost use Rattle.recorded_sessions.specs.Telling.{told_after};

/// What a reply tells its station, by how many entries the station had been told of before it.
#[derive(Clone, Copy, Debug, PartialEq, Eq)]
pub enum Told {
    /// Nothing: it is no reply to its line, at no point of the journal.
    Nothing,
    /// The entry at this point is the line's own, and the station had been told of none from there on.
    Own(u32),
    /// There are so many entries, and the station had been told of no more.
    Point(u32),
    /// There are so many entries at least: the document of a point may be one of before.
    Least(u32),
    /// No more than before.
    Same,
}

impl Told {
    /// How many entries a station has been told of after a reply that tells this, where it had been told of so many;
    /// `None` where no such reply can be.
    pub fn after(self, told: u64) -> Option<u64>
        ensures { result ≡ told_after self told }
    {
        match self {
            Told::Nothing => None,
            Told::Own(point) => {
                if told <= u64::from(point) {
                    Some(u64::from(point) + 1)
                } else {
                    None
                }
            }
            Told::Point(point) => {
                if told <= u64::from(point) {
                    Some(u64::from(point))
                } else {
                    None
                }
            }
            Told::Least(point) => Some(told.max(u64::from(point))),
            Told::Same => Some(told),
        }
    }
}
