// Memory that a vector has taken and does not need.
ghost use Rattle.std.specs.Prelude.{◌≡◌};

use std::alloc::Global;

// Up to so many elements a vector gets a new block. A small block that is cut to its length leaves a piece that the C
// library joins with no other: in hostile documents these pieces are more memory than the values.
const FEW: usize = 64;

/// A list's elements, in a block of no more memory than they need, as far as the allocator gives one.
pub fn without_slack<T: Drop>(alloc: Global, list: Vec<T>) -> Vec<T>
    ensures { result.items ≡ list.items }
{
    let mut list = list;
    if list.len() > FEW {
        list.shrink_to_fit();
        return list;
    }
    moved(alloc, list)
}

/// A list's elements in a new block, or in the old one where there is no memory.
fn moved<T: Drop>(alloc: Global, list: Vec<T>) -> Vec<T>
    ensures { result.items ≡ list.items }
{
    let mut list = list;
    match Vec::with_capacity(alloc, list.len()) {
        Err(_) => list,
        Ok(mut block) => match block.append(&mut list) {
            Ok(()) => block,
            Err(_) => list,
        },
    }
}
