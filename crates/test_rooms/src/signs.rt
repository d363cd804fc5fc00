// Signs that one thread sets and another looks for.
use std::sync::atomic::{AtomicBool, Ordering};

// How often one looks for a sign.
const MOST_LOOKS: u32 = 200_000_000;

// Whether a sign is set while one looks for it.
pub fn is_met(sign: &AtomicBool) -> bool {
    for _ in 0..MOST_LOOKS {
        if sign.load(Ordering::SeqCst) {
            return true;
        }
    }
    false
}

// Sets a sign, for all threads.
pub fn set(sign: &AtomicBool) {
    sign.store(true, Ordering::SeqCst);
}

// Whether a sign is set, by one look at it.
pub fn is_set(sign: &AtomicBool) -> bool {
    sign.load(Ordering::SeqCst)
}
