// Items for lists: shots that span few places or none, and plain lists of them.
ghost use Rattle.std.specs.Prelude.{◌≡◌, ◌<◌, ◌^◌, length, sum_by};

use item_pages::{Memory, Spanned};
use std::alloc::Global;

/// A shot with its number, which spans few places or none.
#[derive(Clone, Copy, Debug, PartialEq, Eq)]
pub struct Shot {
    pub number: u32,
    /// How many places it spans.
    pub len: u8,
}

impl Spanned for Shot {
    ghost places = { λ s. s.len };

    fn span(&self) -> u32 {
        u32::from(self.len)
    }
}

/// So many shots, numbered from this number on. They span 0, 1, 2 and 3 places in turn.
pub fn shots(alloc: Global, number: u32, count: u32) -> Result<Vec<Shot>, Memory> {
    let mut all = Vec::new(alloc);
    for index in 0..count {
        let number = number.wrapping_add(index);
        let len = (number % 4) as u8;
        all.push(Shot { number, len })?;
    }
    Ok(all)
}

/// How many places these span.
pub fn places_of(shots: &[Shot]) -> u64
    requires { length shots.now < 2 ^ 32 }
    ensures { result ≡ sum_by (λ s. s.len) shots.now }
{
    let mut places = 0;
    for shot in shots {
        places += u64::from(shot.len);
    }
    places
}

/// The shots with these in place of those from index `from` up to before `to`.
pub fn plainly_replaced(
    alloc: Global,
    shots: &[Shot],
    from: u32,
    to: u32,
    more: &[Shot],
) -> Result<Vec<Shot>, Memory> {
    let mut all = Vec::new(alloc);
    for (index, shot) in shots.iter().enumerate() {
        if index < from as usize {
            all.push(*shot)?;
        }
    }
    all.extend_from_slice(more)?;
    for (index, shot) in shots.iter().enumerate() {
        if to as usize <= index {
            all.push(*shot)?;
        }
    }
    Ok(all)
}
