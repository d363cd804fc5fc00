// An input of lines, taken one after another.
ghost use Rattle.std.specs.Prelude.{◌≡◌, ◌+◌, ◌<◌, ◌≤◌, ◌^◌, ◌∷◌, ◌++◌, [], ℕ, IfErr, IfOk, List, OnOk, length};
ghost use Rattle.line_words.specs.Lines.{Line, last_line};
ghost use Rattle.line_words.specs.Pieces.{ended, pending_after};
ghost use Rattle.line_words.specs.Told.{line_told};
ghost use Rattle.input_lines.specs.Inputs.{EndsWith, InputEnds, StopsWithin};

use line_words::{LineEnd, LineReader};
use room_ports::Source;

/// What takes lines, and may stop at one.
pub trait TakesLines {
    /// Why it stops.
    type Stop;

    /// From the first of these two it has come to the second by these lines.
    ghost goes: { Self → Self → List Line → Type 0 };

    /// At this line, which has this number, it stops so.
    ghost stops: { Self → ℕ → Line → Self.Stop → Type 0 };

    /// A last line without a line feed that it takes.
    ghost ends: { Line → Type 0 };

    /// At this last line, which has this number and no line feed, it stops so.
    ghost cuts: { ℕ → Line → Self.Stop → Type 0 };

    /// Takes a line that has ended. Lines are numbered from 1.
    fn take(&mut self, number: u32, end: LineEnd, text: &[u8]) -> Result<(), Self::Stop>
        ensures ok { OnOk result (goes self.old self.new (line_told end text.now ∷ [])) }
        ensures stop { IfErr result (λ stop. stops self.old number (line_told end text.now) stop) };

    /// Takes a last line after which no line feed stands.
    fn take_last(&mut self, number: u32, end: LineEnd, text: &[u8]) -> Result<(), Self::Stop>
        ensures ok { OnOk result (goes self.old self.new (line_told end text.now ∷ [])) }
        ensures ends { OnOk result (ends (line_told end text.now)) }
        ensures stop { IfErr result (λ stop. cuts number (line_told end text.now) stop) };

    /// By no lines it stays as it is.
    ghost stays: { (a : Self) → goes a a [] };

    /// Lines that are taken after others are taken with them.
    ghost joins: { (a b c : Self) (lines others : List Line)
        → goes a b lines → goes b c others → goes a c (lines ++ others) };
}

/// Why not all of an input was taken.
#[derive(Clone, Copy, Debug, PartialEq, Eq)]
pub enum InputStop<E> {
    /// A read failed.
    ReadFault,
    /// The input has more than 64 MiB.
    TooMuch,
    /// The taker stopped at a line.
    Stopped(E),
}

// The most bytes of an input.
const MOST_INPUT: usize = 67_108_864;

// The most bytes of one read.
const MOST_READ: usize = 8_192;

// Takes the lines that end within a piece, after so many, and answers how many there are then.
fn take_piece<T: TakesLines>(
    taker: &mut T,
    reader: &mut LineReader,
    count: u32,
    piece: &[u8],
) -> Result<u32, T::Stop>
    requires { count + length piece.now < 2 ^ 32 }
    ensures ok { OnOk result (T.goes taker.old taker.new (ended reader.old.pending piece.now)) }
    ensures stop { IfErr result (λ stop. StopsWithin T.goes T.stops taker.old count
        reader.old.pending piece.now stop) }
    ensures pending { OnOk result (reader.new.pending
        ≡ pending_after reader.old.pending piece.now) }
    ensures count { IfOk result (λ after. after
        ≡ count + length (ended reader.old.pending piece.now)) }
    ensures few { IfOk result (λ after. after ≤ count + length piece.now) }
{
    let mut at = 0;
    let mut after = count;
    while at < piece.len() {
        let (_, rest) = piece.split_at(at);
        let fed = reader.feed(rest);
        at += fed.taken;
        match fed.line {
            Some(end) => {
                after += 1;
                match taker.take(after, end, reader.line()) {
                    Ok(()) => {}
                    Err(stop) => return Err(stop),
                }
            }
            None => {}
        }
    }
    Ok(after)
}

// Takes a last line without a line feed, after so many lines.
fn finish<T: TakesLines>(
    taker: &mut T,
    reader: &mut LineReader,
    count: u32,
) -> Result<(), InputStop<T::Stop>>
    requires { count + 1 < 2 ^ 32 }
    ensures { EndsWith T.goes T.ends T.cuts taker.old taker.new count
        (last_line reader.old.pending) result }
{
    match reader.finish() {
        Some(end) => match taker.take_last(count + 1, end, reader.line()) {
            Ok(()) => Ok(()),
            Err(stop) => Err(InputStop::Stopped(stop)),
        },
        None => Ok(()),
    }
}

/// Takes the lines of an input, in order, until its end, a line at which the taker stops, a read that fails, or more than
/// 64 MiB.
pub fn take_lines<T: TakesLines, S: Source>(
    taker: &mut T,
    input: &mut S,
) -> Result<(), InputStop<T::Stop>>
    ensures { InputEnds T.goes T.stops T.ends T.cuts taker.old taker.new
        (S.left input.old) (S.left input.new)
        (S.read_faults input.old) (S.read_faults input.new) result }
{
    let mut reader = LineReader::new();
    let mut buffer = [0; MOST_READ];
    let mut total = 0;
    let mut count = 0;
    while total <= MOST_INPUT {
        let n = match input.read(&mut buffer) {
            Ok(n) => n,
            Err(_) => return Err(InputStop::ReadFault),
        };
        if n == 0 {
            return finish(taker, &mut reader, count);
        }
        let fits = n.min(MOST_INPUT - total);
        let (piece, _) = buffer.split_at(fits);
        count = match take_piece(taker, &mut reader, count, piece) {
            Ok(count) => count,
            Err(stop) => return Err(InputStop::Stopped(stop)),
        };
        if fits < n {
            return Err(InputStop::TooMuch);
        }
        total += n;
    }
    unreachable!()
}
