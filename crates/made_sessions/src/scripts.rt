// The scripts of a generated session: the calls of each station, drawn from a number, and their lines.
ghost use Rattle.std.specs.Prelude.{◌≡◌, ◌<◌, ◌≤◌, IfOk, OnOk, ◌++◌};
ghost use Rattle.made_sessions.specs.Scripts.{drawn, first_word, next_word, script, script_call, call_drawn, call_with, sent_line, sent_lines, words};

use composables::{Insert, Memory, Overwrite};
use edit_apply::Call;
use frame_meaning::What;
use line_table::{Deed, Step, call_text};
use protocol_parts::put;
use std::alloc::Global;

/// How many words there are.
const WORDS: u64 = 2_147_483_648;

// The word that is drawn after this one.
fn next_word(word: u32) -> u32
    ensures { result ≡ next_word word }
{
    ((word as u64 * 1_103_515_245 + 12_345) % WORDS) as u32
}

// The call at an even place of a script, an overwrite, and at an odd one, an insert.
fn call_with(even: bool, track: u32, at: u32, from: u32, len: u32) -> Call
    requires { track < 32 }
    ensures { result ≡ call_with even track at from len }
{
    let what = What::Media(0);
    if even {
        Call::Overwrite(Overwrite {
            track,
            at,
            what,
            from,
            len,
            keep: false,
        })
    } else {
        Call::Insert(Insert {
            tracks: 1 << track,
            track,
            at,
            what,
            from,
            len,
            keep: false,
        })
    }
}

// The call at a place of a station's script, by the three words drawn.
fn call_drawn(station: u32, place: u32, first: u32, second: u32, third: u32) -> Call
    requires { station < 32 }
    ensures { result ≡ call_drawn station place first second third }
{
    call_with(
        place % 2 == 0,
        station,
        first / 65_536 % 1_000,
        second / 65_536,
        third / 65_536 % 50 + 1,
    )
}

/// A station's script, before one of its calls.
#[derive(Clone, Copy)]
pub(crate) struct Script {
    pub(crate) station: u32,
    pub(crate) place: u32,
    pub(crate) word: u32,
}

impl Script {
    ghost use Rattle.std.specs.Prelude.{◌≡◌, ◌<◌, ◌+◌};
    ghost use Rattle.made_sessions.specs.Scripts.{first_word, next_word, script_call};

    /// The script of a station in the session of a number, before its first call.
    pub(crate) fn new(number: u32, station: u32) -> Script
        ensures { result
            ≡ record { station = station; place = 0; word = first_word number station } }
    {
        let word = (number as u64 + station as u64) % WORDS;
        Script {
            station,
            place: 0,
            word: word as u32,
        }
    }

    /// Its next call.
    pub(crate) fn next(&mut self) -> Call
        requires station { self.old.station < 32 }
        requires place { self.old.place < 4294967295 }
        ensures call { result ≡ script_call self.old.station self.old.place self.old.word }
        ensures script { self.new ≡ record {
          station = self.old.station;
          place = self.old.place + 1;
          word = next_word (next_word (next_word self.old.word));
        } }
    {
        let first = next_word(self.word);
        let second = next_word(first);
        let third = next_word(second);
        let call = call_drawn(self.station, self.place, first, second, third);
        self.place += 1;
        self.word = third;
        call
    }
}

// Adds the line of a call.
fn put_line(alloc: Global, out: &mut Vec<u8>, call: Call) -> Result<(), Memory>
    ensures { OnOk result (out.new.items ≡ out.old.items ++ sent_line call) }
{
    let step = Step {
        by: 0,
        act: Deed::Do(call),
    };
    let text = call_text(alloc, &step)?;
    put(out, &text)?;
    put(out, b"\n")
}

/// The lines that a station sends in the session of a number.
pub fn script_text(alloc: Global, number: u32, count: u32, station: u32) -> Result<Vec<u8>, Memory>
    requires { station < 32 }
    ensures { IfOk result (λ text. text.items ≡ sent_lines (script number count station)) }
{
    let mut out = Vec::new(alloc);
    let mut script = Script::new(number, station);
    for line in 0..count {
        let _ = line;
        let call = script.next();
        put_line(alloc, &mut out, call)?;
    }
    Ok(out)
}
