// What the program asks of the C library's allocator.
use std::alloc::Global;

// Bytes of the block: many times what an edit of the longest track makes anew, and little beside a document.
const BLOCK: usize = 2 << 20;

/// Has the C library keep what the program frees, for what it takes next. The library keeps twice the largest block that
/// was freed, so one is taken and freed; its memory is not touched, so none is used. Otherwise the library gives a track's
/// memory back to the system at each edit, since an edit works on copies of its tracks, and the system's work for a long
/// track is more than the edit's.
pub fn keep_freed_memory(alloc: Global) {
    let block = Vec::<u8>::with_capacity(alloc, BLOCK);
    drop(block);
}
