// What holds of every seat over the restarts of its room.
ghost use Rattle.std.specs.Prelude.{◌≡◌, ◌≤◌, ◌++◌, ℕ, List};
ghost use Rattle.crew_hall.specs.Restarts.{AlwaysSendsOn, lines_after};
ghost use Rattle.seat_lines.specs.Runs.{Event, begun, run};
ghost use Rattle.seat_lines.specs.Texts.{text_of};

use seat_lines::each_line_once_and_in_order;

/// A seat that begins after the line of some number, as after the last entry that was kept of its station: whatever
/// connections come, bring and break, where the client of each sends its lines from LINES + 1 on, the session gets those
/// after that number, each once and in order, up to the last that was taken. So none up to that number is done again, and
/// line i of the session is the client's line of that number and i more.
pub fn a_seat_goes_on()
    ensures goes_on { (lines : List (List ℕ)) (base : ℕ) (events : List Event)
        → AlwaysSendsOn lines events (begun base)
        → (run events (begun base)).read ++ (run events (begun base)).seat.waiting
        ≡ text_of (lines_after base (run events (begun base)).seat.lines lines) }
    ensures numbers { (base : ℕ) (events : List Event)
        → base ≤ (run events (begun base)).seat.lines }
{
    each_line_once_and_in_order();
}
