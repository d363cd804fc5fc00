// The calls of a session's entries.
use cut_steps::{CutCall, Deed};
use edit_calls::Call;
use room_core::Entry;
use std::alloc::Global;

// The entry with its call alone, where it is a call that was done.
fn bare_entry(entry: Entry<CutCall>) -> Option<Entry<Call>> {
    let Entry {
        station,
        number,
        call,
    } = entry;
    match call.act {
        Deed::Do(call) => Some(Entry {
            station,
            number,
            call,
        }),
        Deed::Back { .. } => None,
    }
}

/// The entries with their calls alone; `None` where one takes a call back, which no script does, or where there is no
/// memory.
pub(crate) fn bare_entries(
    alloc: Global,
    entries: Vec<Entry<CutCall>>,
) -> Option<Vec<Entry<Call>>> {
    let mut bare = match Vec::with_capacity(alloc, entries.len()) {
        Ok(bare) => bare,
        Err(_) => return None,
    };
    for entry in entries {
        match bare.push(bare_entry(entry)?) {
            Ok(()) => {}
            Err(_) => return None,
        }
    }
    Some(bare)
}
