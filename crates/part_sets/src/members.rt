// The parts that a set names.
ghost use Rattle.std.specs.Prelude.{◌≡◌, ◌<◌, ◌&&◌, not, nat_lt};
ghost use Rattle.part_sets.specs.Members.{first_absent, has, members};

/// Whether bit `number` of the set is set, which names that part.
pub fn has(set: u32, number: u32) -> bool
    requires { number < 32 }
    ensures { result ≡ has set number }
{
    (set >> number) & 1 == 1
}

// Whether a set names this part, which is not below the count.
fn is_absent(count: u32, set: u32, number: u32) -> bool
    requires { number < 32 }
    ensures { result ≡ (has set number && not (nat_lt number count)) }
{
    has(set, number) && number >= count
}

/// The least part of a set that is not below the count of parts, so that no such part is there; `None` where all are.
pub fn first_absent(count: u32, set: u32) -> Option<u32>
    ensures { result ≡ first_absent count (members set) }
{
    for number in 0..32 {
        if is_absent(count, set, number) {
            return Some(number);
        }
    }
    None
}
