// Rates: how many a second.
ghost use Rattle.std.specs.Prelude.{◌≤◌, ◌^◌};

/// `num`/`den` a second, as 30000/1001 frames. Two rates are equal where both of their numbers are:
/// 24/1 and 48/2 are two rates that count alike.
#[derive(Clone, Copy, Debug, PartialEq, Eq)]
pub struct Rate {
    pub num: u64,
    pub den: u64,
    pub ghost num_in: { (1 ≤ num) × (num ≤ 10 ^ 12) },
    pub ghost den_in: { (1 ≤ den) × (den ≤ 10 ^ 6) },
}
