// The lines of a tape's text.
ghost use Rattle.std.specs.Prelude.{◌≡◌, ◌++◌, OnOk};
ghost use Rattle.edl_read.specs.TapeText.{channel_name, number_text, picture_text, place_text, run_text, side_text};

use crate::pieces::Piece;
use crate::{Channel, Memory};
use frame_meaning::{Frame, Side};
use itoa::Buffer;
use reel_names::Name;

// Adds the line of a run to a text: none where it is dark.
pub(crate) fn put_run(out: &mut Vec<u8>, channel: Channel, run: &Piece) -> Result<(), Memory>
    ensures { OnOk result (out.new.items
        ≡ out.old.items ++ run_text channel run.now.place run.now.len run.now.first) }
{
    match &run.first {
        Frame::Dark => Ok(()),
        Frame::Pic { what, source } => {
            put_place(out, channel, run.place, run.len)?;
            put_picture(out, what, *source)?;
            put(out, b"\n")
        }
        Frame::Mix {
            left,
            right,
            num,
            den,
        } => {
            put_place(out, channel, run.place, run.len)?;
            put(out, b" mix")?;
            put_side(out, left)?;
            put_side(out, right)?;
            put_number(out, *num)?;
            put_number(out, *den)?;
            put(out, b"\n")
        }
    }
}

// Adds the channel, the record frame of a run and how many frames it has.
fn put_place(out: &mut Vec<u8>, channel: Channel, place: u32, len: u32) -> Result<(), Memory>
    ensures { OnOk result (out.new.items ≡ out.old.items ++ place_text channel place len) }
{
    put(out, channel_name(channel))?;
    put_number(out, place)?;
    put_number(out, len)
}

// A channel as the text writes it.
fn channel_name(channel: Channel) -> &'static [u8]
    ensures { result.now ≡ channel_name channel }
{
    match channel {
        Channel::V => b"V",
        Channel::A => b"A",
        Channel::A2 => b"A2",
    }
}

// Adds a side of a mix: `BL` where it is dark, else its reel and source frame.
fn put_side(out: &mut Vec<u8>, side: &Side<Name>) -> Result<(), Memory>
    ensures { OnOk result (out.new.items ≡ out.old.items ++ side_text side.now) }
{
    match side {
        Side::Dark => put(out, b" BL"),
        Side::Pic { what, source } => put_picture(out, what, *source),
    }
}

// Adds a reel and its source frame, each after a blank.
fn put_picture(out: &mut Vec<u8>, reel: &Name, source: u32) -> Result<(), Memory>
    ensures { OnOk result (out.new.items ≡ out.old.items ++ picture_text reel.now source) }
{
    put(out, b" ")?;
    put(out, reel.as_bytes())?;
    put_number(out, source)
}

// Adds a number in decimal, after a blank.
fn put_number(out: &mut Vec<u8>, number: u32) -> Result<(), Memory>
    ensures { OnOk result (out.new.items ≡ out.old.items ++ number_text number) }
{
    put(out, b" ")?;
    let mut buffer = Buffer::new();
    put(out, buffer.format(number).as_bytes())
}

// Adds bytes to a text.
fn put(out: &mut Vec<u8>, bytes: &[u8]) -> Result<(), Memory>
    ensures { OnOk result (out.new.items ≡ out.old.items ++ bytes.now) }
{
    out.extend_from_slice(bytes)?;
    Ok(())
}
