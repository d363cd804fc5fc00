// A row: the items of a track, as far as they have been read.
ghost use Rattle.std.specs.Prelude.{◌≡◌, ◌+◌, ◌<◌, ◌≤◌, ◌^◌, IfOk, IfSome, OnOk, OnErr};
ghost use Rattle.json_tree.specs.View.{tree_of};
ghost use Rattle.otio_tracks.specs.Reading.{Gives};
ghost use Rattle.otio_tracks.specs.Times.{rate_pair};
ghost use Rattle.otio_tracks.specs.Rows.{all_kept, empty_row, longer, kept, waits, dissolve_before, row_with, row_end, row_frames, frames_in_all};
ghost use Rattle.otio_tracks.specs.Transitions.{joins};
ghost use Rattle.otio_tracks.specs.SoundParts.{AreSoundParts, IsItemPart};
ghost use Rattle.otio_tracks.specs.SoundRows.{FitsBefore, IsSoundRow};

use crate::faults::{DocCode, DocFault, Fault};
use crate::parts::Part;
use crate::transitions::{Waiting, dissolve_between, joins, transition};
use composables::Memory;
use frame_meaning::Mark;
use json_tree::Json;
use ratio_time::Rate;
use std::alloc::Global;
use std::marker::Model;

/// The items and gaps that are kept, but for the last one, which may still grow; the last one; the item that was read
/// last, which is left out where it has no frames; and the transition that waits.
#[derive(Drop)]
pub struct Row {
    done: Vec<Part>,
    last: Option<Part>,
    before: Option<Part>,
    waiting: Option<Waiting>,
}

impl Model for Row {
    ghost use Rattle.otio_tracks.specs.Rows.{RowState};

    ghost Value = { RowState };

    ghost use Rattle.otio_tracks.specs.RowInside.{row_of, IsRow};

    ghost view = { row_of };

    ghost invariant = { IsRow };
}

// The item kept last, with so many frames more.
fn longer(last: Option<Part>, frames: u64) -> Option<Part>
    requires { IfSome last (λ p. p.len + frames < 2 ^ 64) }
    ensures { result ≡ longer last frames }
{
    let last = last?;
    Some(Part {
        len: last.len + frames,
        ..last
    })
}

// Adds the item kept last, if there is one, after the others.
fn push_last(done: &mut Vec<Part>, last: Option<Part>) -> Result<(), Memory>
    ensures ok { OnOk result (done.new.items ≡ all_kept done.old.items last) }
    ensures err { OnErr result (done.new.items ≡ done.old.items) }
{
    match last {
        Some(last) => done.push(last)?,
        None => {}
    }
    Ok(())
}

impl Row {
    /// A row without items.
    pub fn new(alloc: Global) -> Row
        ensures { result ≡ empty_row }
    {
        Row {
            done: Vec::new(alloc),
            last: None,
            before: None,
            waiting: None,
        }
    }

    /// Notes a transition, which waits for the item after it. What is wrong with it is told with that item.
    pub fn wait(&mut self, rate: &Rate, json: &Json)
        ensures { self.new ≡ waits (rate_pair rate.now) self.old (tree_of json.now) }
    {
        match self.waiting {
            Some(waiting) => {
                self.waiting = Some(Waiting {
                    crowded: true,
                    ..waiting
                });
            }
            None => {
                self.waiting = Some(Waiting {
                    at: json.at,
                    offsets: transition(rate, json),
                    crowded: false,
                });
            }
        }
    }

    // The dissolve between the row so far and its next item, if a transition waits there.
    fn dissolve_before(&self, next: &Part) -> Result<Option<Mark>, Fault>
        requires { row_frames self.now < 2 ^ 63 }
        ensures read { result ≡ dissolve_before self.now next.now }
        ensures fits { IfOk result (λ mark. FitsBefore self.now next.now mark) }
    {
        match self.waiting {
            Some(waiting) => dissolve_between(self.last, self.before, &waiting, next),
            None => Ok(None),
        }
    }

    // Keeps an item with the dissolve before it. One without frames is left out, and two gaps that meet are one.
    fn keep(&mut self, next: &Part, mark: Option<Mark>) -> Result<(), Memory>
        requires frames { row_frames self.old + next.now.len < 2 ^ 63 }
        requires sound { IsItemPart next.now }
        requires fits { FitsBefore self.old next.now mark }
        ensures ok { OnOk result (self.new ≡ kept self.old next.now mark) }
    {
        if next.len == 0 {
            self.before = Some(*next);
            self.waiting = None;
            return Ok(());
        }
        if joins(self.last, next) {
            self.last = longer(self.last, next.len);
            self.before = Some(*next);
            self.waiting = None;
            return Ok(());
        }
        push_last(&mut self.done, self.last)?;
        self.last = Some(Part { mark, ..*next });
        self.before = Some(*next);
        self.waiting = None;
        Ok(())
    }

    /// Adds the next item of the row, with the dissolve of the transition that waits, or refuses that.
    pub fn add(&mut self, next: &Part) -> Result<(), DocFault>
        requires short { next.now.len < 2 ^ 32 }
        requires sound { IsItemPart next.now }
        requires frames { row_frames self.old + 2 ^ 32 < 2 ^ 63 }
        ensures read { Gives (λ _. self.new) result (row_with self.old next.now) }
        ensures frames { OnOk result (row_frames self.new ≤ row_frames self.old + 2 ^ 32) }
    {
        let mark = self.dissolve_before(next)?;
        self.keep(next, mark)?;
        Ok(())
    }

    /// All that was kept, at the end of the list, or O8 where a transition still waits for an item.
    pub fn finish(self) -> Result<Vec<Part>, DocFault>
        ensures read { Gives (λ parts. parts.items) result (row_end self) }
        ensures frames { IfOk result (λ parts. frames_in_all parts.items ≡ row_frames self) }
        ensures sound { IfOk result (λ parts. AreSoundParts parts.items) }
    {
        match self.waiting {
            Some(waiting) => {
                return Err(DocFault::Refused {
                    code: DocCode::O8,
                    at: waiting.at,
                });
            }
            None => {}
        }
        let mut parts = self.done;
        push_last(&mut parts, self.last)?;
        Ok(parts)
    }
}
