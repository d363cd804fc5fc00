// Names for the reels of a list, in order of its lines.
ghost use Rattle.std.specs.Prelude.{◌≡◌, [], Err, None, Ok, Some, IfErr, IfOk, OnOk, slice_index_or};
ghost use Rattle.reel_names.specs.Namers.{AreNames, name_for, with_name};
ghost use Rattle.reel_names.specs.declared.namer.NameFault.TheVariants.{NoName};
ghost use Rattle.edl_write.specs.Naming.{asked, naming, no_names, reels_of, reels_of_all, reels_of_left, reels_of_side};
ghost use Rattle.edl_write.specs.NamingSteps.{AreUsed, IsRefusal, names_at};

use crate::fault::ListFault;
use crate::ordering::ChannelSegment;
use composables::{Listed, Reels};
use frame_meaning::{Memory, Side};
use reel_names::{Name, NameFault, ReelName, ReelNamer, name_among};
use std::alloc::Global;

/// The names of the reels of these events, asked of the namer in order of the lines, or `Reel` with the first that it
/// refuses.
pub fn names_of(
    alloc: Global,
    reels: &Reels,
    events: &[ChannelSegment],
    namer: &mut dyn ReelNamer,
) -> Result<Listed<ReelName>, ListFault>
    ensures named { IfOk result (λ used. naming (rule namer.old) reels.now
        (Ok (no_names (given namer.old))) (reels_of_all events.now)
        ≡ Ok (names_at (given namer.new) used)) }
    ensures names { IfOk result AreNames }
    ensures refused { IfErr result (λ fault. IsRefusal fault (naming (rule namer.old) reels.now
        (Ok (no_names (given namer.old))) (reels_of_all events.now))) }
{
    let mut used = Listed::new(alloc);
    for event in events {
        match name_event(reels, event, namer, &mut used) {
            Ok(()) => {}
            Err(fault) => return Err(fault),
        }
    }
    Ok(used)
}

// Asks for the reels of an event, the outgoing one of a dissolve first.
fn name_event(
    reels: &Reels,
    event: &ChannelSegment,
    namer: &mut dyn ReelNamer,
    used: &mut Listed<ReelName>,
) -> Result<(), ListFault>
    requires { AreUsed (given namer.old) used.old }
    ensures named { OnOk result (naming (rule namer.old) reels.now
        (Ok (names_at (given namer.old) used.old)) (reels_of event.now)
        ≡ Ok (names_at (given namer.new) used.new)) }
    ensures used { OnOk result (AreUsed (given namer.new) used.new) }
    ensures refused { IfErr result (λ fault. IsRefusal fault (naming (rule namer.old) reels.now
        (Ok (names_at (given namer.old) used.old)) (reels_of event.now))) }
    ensures rule { rule namer.new ≡ rule namer.old }
{
    name_left(reels, event.segment.from, namer, used)?;
    name_side(reels, event.segment.side, namer, used)
}

// Asks for the reel of a dissolve's outgoing side, if there is one.
fn name_left(
    reels: &Reels,
    from: Option<Side<u32>>,
    namer: &mut dyn ReelNamer,
    used: &mut Listed<ReelName>,
) -> Result<(), ListFault>
    requires { AreUsed (given namer.old) used.old }
    ensures named { OnOk result (naming (rule namer.old) reels.now
        (Ok (names_at (given namer.old) used.old)) (reels_of_left from)
        ≡ Ok (names_at (given namer.new) used.new)) }
    ensures used { OnOk result (AreUsed (given namer.new) used.new) }
    ensures refused { IfErr result (λ fault. IsRefusal fault (naming (rule namer.old) reels.now
        (Ok (names_at (given namer.old) used.old)) (reels_of_left from))) }
    ensures rule { rule namer.new ≡ rule namer.old }
{
    match from {
        Some(left) => name_side(reels, left, namer, used),
        None => Ok(()),
    }
}

// Asks for the reel of a side; a dark one has none.
fn name_side(
    reels: &Reels,
    side: Side<u32>,
    namer: &mut dyn ReelNamer,
    used: &mut Listed<ReelName>,
) -> Result<(), ListFault>
    requires { AreUsed (given namer.old) used.old }
    ensures named { OnOk result (naming (rule namer.old) reels.now
        (Ok (names_at (given namer.old) used.old)) (reels_of_side side)
        ≡ Ok (names_at (given namer.new) used.new)) }
    ensures used { OnOk result (AreUsed (given namer.new) used.new) }
    ensures refused { IfErr result (λ fault. IsRefusal fault (naming (rule namer.old) reels.now
        (Ok (names_at (given namer.old) used.old)) (reels_of_side side))) }
    ensures rule { rule namer.new ≡ rule namer.old }
{
    match side {
        Side::Pic {
            what: reel,
            source: _,
        } => name_reel(reels, reel, namer, used),
        Side::Dark => Ok(()),
    }
}

// Asks for a reel, and notes that its name is used.
fn name_reel(
    reels: &Reels,
    reel: u32,
    namer: &mut dyn ReelNamer,
    used: &mut Listed<ReelName>,
) -> Result<(), ListFault>
    requires { AreUsed (given namer.old) used.old }
    ensures named { OnOk result (
        asked (rule namer.old) reels.now (Ok (names_at (given namer.old) used.old)) reel
        ≡ Ok (names_at (given namer.new) used.new)) }
    ensures used { OnOk result (AreUsed (given namer.new) used.new) }
    ensures refused { IfErr result (λ fault. IsRefusal fault
        (asked (rule namer.old) reels.now (Ok (names_at (given namer.old) used.old)) reel)) }
    ensures rule { rule namer.new ≡ rule namer.old }
{
    match ask(reels, reel, namer) {
        Ok(name) => {
            use_name(used, reel, name)?;
            Ok(())
        }
        Err(NameFault::NoName) => Err(ListFault::Reel(reel)),
        Err(NameFault::Memory) => Err(ListFault::Memory),
    }
}

// Asks the namer for a reel with its text in the table.
fn ask(reels: &Reels, reel: u32, namer: &mut dyn ReelNamer) -> Result<Name, NameFault>
    ensures name { IfOk result (λ name. name_for (rule namer.old) (given namer.old) reel
        (slice_index_or reels.now reel []) ≡ Some name) }
    ensures grows { IfOk result (λ name. given namer.new ≡ with_name (given namer.old) reel name) }
    ensures no_name { result ≡ Err NoName → name_for (rule namer.old) (given namer.old) reel
        (slice_index_or reels.now reel []) ≡ None }
    ensures names { AreNames (given namer.new) }
    ensures rule { rule namer.new ≡ rule namer.old }
{
    namer.name(reel, text_of(reels, reel))
}

// The text of a reel in the table.
fn text_of(reels: &Reels, reel: u32) -> &str
    ensures { result.now ≡ slice_index_or reels.now reel [] }
{
    match reels.name(reel) {
        Some(text) => text,
        None => "",
    }
}

// Adds a name that is used, unless it is there.
fn use_name(used: &mut Listed<ReelName>, reel: u32, name: Name) -> Result<(), Memory>
    ensures { OnOk result (used.new ≡ with_name used.old reel name) }
{
    match name_among(used.as_slice(), reel) {
        Some(_) => return Ok(()),
        None => {}
    }
    used.push(ReelName { reel, name })?;
    Ok(())
}
