// What holds of every run of a seat.
ghost use Rattle.std.specs.Prelude.{◌≡◌, ◌+◌, ◌-◌, ◌≤◌, ◌++◌, ◌∷◌, [], ℕ, List, true, false, map, length, take};
ghost use Rattle.line_words.specs.Lines.{ended_line, limited};
ghost use Rattle.seat_lines.specs.Runs.{AlwaysKeeps, Brings, Event, IsFrontOf, Notes, Sits, begun, run};
ghost use Rattle.seat_lines.specs.Texts.{after_lines, lines_in, shortened, text_of};

/// Whatever connections come, bring and break, and whatever the session reads and writes meanwhile: where the client of
/// each connection keeps to the rule, what the session has read and what waits for it are the client's lines, each once
/// and in order, up to the last that was taken.
pub fn each_line_once_and_in_order()
    ensures { (script : List (List ℕ)) (base : ℕ) (events : List Event)
        → AlwaysKeeps script base events (begun base)
        → (run events (begun base)).read ++ (run events (begun base)).seat.waiting
        ≡ text_of (take ((run events (begun base)).seat.lines - base) (map shortened script)) }
{}

/// What went out over the connection that is there is a front of what the session has written after as many replies
/// as its sitting down was answered with: no reply is missing, none comes twice, and none is another.
pub fn replies_without_a_gap()
    ensures front { (base : ℕ) (events : List Event) → (run events (begun base)).seat.is_here ≡ true
        → IsFrontOf (run events (begun base)).out
        (after_lines ((run events (begun base)).replies - base) (run events (begun base)).written) }
    ensures numbers { (base : ℕ) (events : List Event)
        → (base ≤ (run events (begun base)).replies)
        × ((run events (begun base)).replies ≤ base + lines_in (run events (begun base)).written) }
{}

/// However many connections brought the lines of a client that kept to the rule, the session gets what it gets of one
/// client that brings the same lines over one connection.
pub fn two_are_one_client()
    ensures { (script : List (List ℕ)) (base : ℕ) (events : List Event)
        → AlwaysKeeps script base events (begun base)
        → (run events (begun base)).read ++ (run events (begun base)).seat.waiting
        ≡ (run (Sits 0 ∷ Brings (text_of (take ((run events (begun base)).seat.lines - base)
        (map shortened script))) ∷ []) (begun base)).seat.waiting }
{}

/// The room makes of a line that was shortened what it makes of the line itself.
pub fn long_lines_stay_long()
    ensures { (line : List ℕ) → ended_line (limited (shortened line))
        ≡ ended_line (limited line) }
{}
