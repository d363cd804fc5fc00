// The rate that a number stands for.
ghost use Rattle.std.specs.Prelude.{◌≡◌, ℕ, ◌≤◌, ◌^◌, ◌*◌, pos, ◌*ℤ◌, ◌-ℤ◌, ◌↔◌, IsTrue, IsNone, IfSome, IfNone, unsigned_abs, Some, None, MatchOption};
ghost use Rattle.std.specs.List.{All, Contains};
ghost use Rattle.ratio_time.specs.Rates.{usual_rates, StandsFor, IsUnusual, IsRateItself, GivesRate, itself, rate_value};

use crate::numeral::Numeral;
use crate::rate::Rate;

/// The rates of film and television, as `num` and `den`.
const USUAL_RATES: [(u64, u64); 7] = [
    (24_000, 1_001),
    (24, 1),
    (25, 1),
    (30_000, 1_001),
    (30, 1),
    (48_000, 1_001),
    (60_000, 1_001),
];

/// The rate that a number stands for: one of the rates of film and television, where the number is
/// at most 1/200 from it, as 23.98 and 23.976 are from 24000/1001; else the number itself, where it is
/// positive, with a mantissa below 10^12 and at most six places.
pub fn rate_of(number: &Numeral) -> Option<Rate>
    ensures usual { All (λ usual. StandsFor number.now usual
        → GivesRate result usual.0 usual.1) usual_rates }
    ensures itself { IsUnusual number.now → IsRateItself number.now
        → GivesRate result (unsigned_abs number.now.mantissa) (10 ^ number.now.places) }
    ensures none { IsNone result ↔ (IsUnusual number.now × (IsRateItself number.now → ⊥)) }

    // The answer as a function of the number, for definitions that compute.
    ensures value { MatchOption result (rate_value number.now ≡ None)
        (λ rate. rate_value number.now ≡ Some (rate.num, rate.den)) }
{
    match usual_rate(number) {
        Some(rate) => Some(rate),
        None => rate_itself(number),
    }
}

/// The rate of film and television that the number stands for, if there is one.
fn usual_rate(number: &Numeral) -> Option<Rate>
    ensures found { IfSome result (λ rate. Contains usual_rates (rate.num, rate.den)
        × StandsFor number.now (rate.num, rate.den)) }
    ensures none { IfNone result (IsUnusual number.now) }
{
    for (num, den) in USUAL_RATES {
        let rate = Rate { num, den };
        if stands_for(number, &rate) {
            return Some(rate);
        }
    }
    None
}

/// Whether the number is at most 1/200 from the rate.
fn stands_for(number: &Numeral, rate: &Rate) -> bool
    ensures { IsTrue result ↔ StandsFor number.now (rate.now.num, rate.now.den) }
{
    let bound = u128::from(rate.den) * number.denominator();
    200 * apart(number, rate).unsigned_abs() <= bound
}

/// How far the number is above the rate, in parts of which 10^places · den make one.
fn apart(number: &Numeral, rate: &Rate) -> i128
    ensures value { result ≡ number.now.mantissa *ℤ pos rate.now.den
        -ℤ pos (rate.now.num * 10 ^ number.now.places) }
    ensures size { unsigned_abs result ≤ 2 * 10 ^ 30 }
{
    let of_rate = u128::from(rate.num) * number.denominator();
    i128::from(number.mantissa) * i128::from(rate.den) - of_rate as i128
}

/// The number as a rate of its own, where it is positive, with a mantissa below 10^12 and at most six places.
fn rate_itself(number: &Numeral) -> Option<Rate>
    ensures some { IfSome result (λ rate. (rate.num ≡ unsigned_abs number.now.mantissa)
        × (rate.den ≡ 10 ^ number.now.places)) }
    ensures none { IsNone result ↔ (IsRateItself number.now → ⊥) }
    ensures value { MatchOption result (itself number.now ≡ None)
        (λ rate. itself number.now ≡ Some (rate.num, rate.den)) }
{
    if number.mantissa <= 0 || number.mantissa >= 1_000_000_000_000 || number.places > 6 {
        return None;
    }
    Some(Rate {
        num: number.mantissa as u64,
        den: 10u64.pow(u32::from(number.places)),
    })
}
