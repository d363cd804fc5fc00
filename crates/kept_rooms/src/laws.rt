// What the records of a kept file mean, whoever reads them.
ghost use Rattle.kept_rooms.specs.Readings.{AreNotBoth, HaveOneFault, HaveOneReading};

/// In a room of any parts the records of a kept file are its first entries, one list of them, or
/// have one fault, and never both.
pub fn records_have_one_reading<P, D, R>()
    ensures one_reading { HaveOneReading P D R }
    ensures one_fault { HaveOneFault P D R }
    ensures not_both { AreNotBoth P D R }
{}
