// The opening of a list that is read.
use edl_read::{MAX_LIST, read_list};
use list_import::{ImportFault, import_list};
use otio_json::Opening;
use std::alloc::Global;
use timecode12::{Counting, SequenceRate};

/// The opening that a list makes, counted with or without drop-frame. It has no contract, so that a test is proved without
/// that of the call.
pub fn opened(alloc: Global, list: &[u8], drop: bool) -> Result<Opening, ImportFault> {
    let rate = if drop {
        SequenceRate::F2997
    } else {
        SequenceRate::F24
    };
    let counting = match Counting::new(rate, drop) {
        Some(counting) => counting,
        None => return Err(ImportFault::Memory),
    };
    if list.len() > MAX_LIST {
        return Err(ImportFault::Memory);
    }
    match read_list(alloc, list, rate) {
        Ok(list) => import_list(alloc, &list, &counting),
        Err(_) => Err(ImportFault::Memory),
    }
}
