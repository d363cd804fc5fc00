// Runs put one after another.
ghost use Rattle.std.specs.Prelude.{◌≡◌, ◌+◌, ◌<◌, ◌≤◌, ◌^◌, ◌==◌, ◌++◌, List, OnOk};
ghost use Rattle.frame_meaning.specs.declared.cells.What.{What};
ghost use Rattle.frame_meaning.specs.declared.frames.Frame.{Frame};
ghost use Rattle.frame_meaning.specs.Cells.{later_side};
ghost use Rattle.frame_meaning.specs.Going.{frame_goes_on, same_what, side_goes_on};
ghost use Rattle.dissolves.specs.Pieces.{Reaches, SideReaches, last_frame, later_frame, len_of, push_run, run_frames};
ghost use Rattle.dissolves.specs.Walk.{Walked};

use frame_meaning::{Frame, Memory, Run, Side, What};

/// Adds the part of a run that lies in the places [a, b), where the run begins at the place `from`, after the runs of
/// all frames before it.
pub fn add_part(
    all: &mut Vec<Run<What>>,
    run: Run<What>,
    from: u32,
    a: u32,
    b: u32,
) -> Result<(), Memory>
    requires order { a ≤ b }
    requires reaches { Reaches run.frame run.len }
    requires places { from + run.len < 2 ^ 32 }
    requires room { len_of all.old.items ≤ from }
    ensures walked { OnOk result ((rest frames : List (Frame What))
        → Walked all.old.items from a b (run_frames run ++ rest) frames
        → Walked all.new.items (from + run.len) a b rest frames) }
    ensures room { OnOk result (len_of all.new.items ≤ from + run.len) }
{
    let begin = a.max(from);
    let end = b.min(from + run.len);
    if begin < end {
        let part = Run {
            frame: frame_later(run.frame, begin - from),
            len: end - begin,
        };
        push_run(all, part)?;
    }
    Ok(())
}

// Adds a run: to the last one where its first frame goes on from that, else as one more.
fn push_run(all: &mut Vec<Run<What>>, run: Run<What>) -> Result<(), Memory>
    requires { len_of all.old.items + run.len < 2 ^ 32 }
    ensures { OnOk result (all.new.items ≡ push_run same_what all.old.items run) }
{
    let count = all.len();
    if count > 0 && is_followed(&all[count - 1], &run.frame) {
        all[count - 1].len += run.len;
        return Ok(());
    }
    all.push(run)?;
    Ok(())
}

// Whether a frame goes on from the last frame of a run.
fn is_followed(run: &Run<What>, frame: &Frame<What>) -> bool
    ensures { result ≡ frame_goes_on same_what (last_frame run.now) frame.now }
{
    let more = run.len.saturating_sub(1);
    match (&run.frame, frame) {
        (Frame::Dark, Frame::Dark) => true,
        (
            Frame::Pic {
                what: thing,
                source: at,
            },
            Frame::Pic { what, source },
        ) => thing == what && is_next(*at, more, *source),
        (
            Frame::Mix {
                left,
                right,
                num,
                den,
            },
            Frame::Mix {
                left: left_after,
                right: right_after,
                num: num_after,
                den: den_after,
            },
        ) => {
            is_side_followed(left, more, left_after)
                && is_side_followed(right, more, right_after)
                && den == den_after
                && is_next(*num, more, *num_after)
        }
        _ => false,
    }
}

// Whether a side goes on from another, so many frames after its first.
fn is_side_followed(side: &Side<What>, more: u32, after: &Side<What>) -> bool
    ensures { result ≡ side_goes_on same_what (later_side side.now more) after.now }
{
    match (side, after) {
        (Side::Dark, Side::Dark) => true,
        (
            Side::Pic {
                what: thing,
                source: frame,
            },
            Side::Pic { what, source },
        ) => thing == what && is_next(*frame, more, *source),
        _ => false,
    }
}

// Whether a number is the next after another and so many more.
fn is_next(at: u32, more: u32, after: u32) -> bool
    ensures { result ≡ (after == at + more + 1) }
{
    u64::from(after) == u64::from(at) + u64::from(more) + 1
}

// The frame that goes on from a frame, that many frames later.
fn frame_later(frame: Frame<What>, n: u32) -> Frame<What>
    requires { Reaches frame (n + 1) }
    ensures { result ≡ later_frame frame n }
{
    match frame {
        Frame::Dark => Frame::Dark,
        Frame::Pic { what, source } => Frame::Pic {
            what,
            source: source + n,
        },
        Frame::Mix {
            left,
            right,
            num,
            den,
        } => Frame::Mix {
            left: side_later(left, n),
            right: side_later(right, n),
            num: num + n,
            den,
        },
    }
}

/// The side so many source frames later; dark stays dark.
pub fn side_later(side: Side<What>, n: u32) -> Side<What>
    requires { SideReaches side (n + 1) }
    ensures { result ≡ later_side side n }
{
    match side {
        Side::Dark => Side::Dark,
        Side::Pic { what, source } => Side::Pic {
            what,
            source: source + n,
        },
    }
}
