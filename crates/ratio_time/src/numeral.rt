// Exact decimal numbers.
ghost use Rattle.std.specs.Prelude.{◌≡◌, ℕ, ◌<◌, ◌≤◌, ◌-◌, ◌*◌, ◌^◌, ℤ, pos, unsigned_abs};
ghost use Rattle.ratio_time.specs.Numerals.{with_sign, SameNumber, HasLeastPlaces};

/// The number `mantissa`/10^`places`, in its one shortest form: 1.50 is 15 with one place, and 0 has no
/// places. So two numerals are equal exactly where their numbers are.
#[derive(Clone, Copy, Debug, PartialEq, Eq)]
pub struct Numeral {
    pub mantissa: i64,
    pub places: u8,
    pub ghost in_size: { unsigned_abs mantissa < 10 ^ 18 },
    pub ghost few_places: { places ≤ 18 },
    pub ghost least_places: { HasLeastPlaces mantissa places },
}

impl Numeral {
    /// The numeral of the number `mantissa`/10^`places`, which may have zeros at its end.
    pub fn least(mantissa: i64, places: u8) -> Numeral
        requires in_size { unsigned_abs mantissa < 10 ^ 18 }
        requires few_places { places ≤ 18 }
        ensures same { SameNumber result.mantissa result.places mantissa places }
        ensures no_more { result.places ≤ places }
    {
        Numeral::of_digits(mantissa < 0, mantissa.unsigned_abs(), places)
    }

    /// The numeral of `digits`/10^`places`, or of its negative. The digits may end in zeros.
    pub fn of_digits(negative: bool, digits: u64, places: u8) -> Numeral
        requires in_size { digits < 10 ^ 18 }
        requires few_places { places ≤ 18 }
        ensures same { SameNumber result.mantissa result.places (with_sign negative digits) places }
        ensures no_more { result.places ≤ places }
    {
        let (digits, places) = without_trailing_zeros(digits, places);
        let mantissa = signed(negative, digits);
        Numeral { mantissa, places }
    }

    /// 10^`places`, which the mantissa is divided by.
    pub fn denominator(&self) -> u128
        ensures value { result ≡ 10 ^ self.now.places }
        ensures positive { 1 ≤ result }
        ensures size { result ≤ 10 ^ 18 }
    {
        10u128.pow(u32::from(self.places))
    }
}

/// A size as a mantissa with its sign.
fn signed(negative: bool, size: u64) -> i64
    requires { size < 10 ^ 18 }
    ensures value { result ≡ with_sign negative size }
    ensures size { unsigned_abs result ≡ size }
{
    if negative {
        -(size as i64)
    } else {
        size as i64
    }
}

/// The number digits/10^places with its trailing zeros left out.
fn without_trailing_zeros(digits: u64, places: u8) -> (u64, u8)
    ensures places { result.1 ≤ places }
    ensures value { result.0 * 10 ^ (places - result.1) ≡ digits }
    ensures no_greater { result.0 ≤ digits }
    ensures least { HasLeastPlaces (pos result.0) result.1 }
{
    let mut digits = digits;
    let mut places = places;
    while places > 0 && digits % 10 == 0 {
        digits /= 10;
        places -= 1;
    }
    (digits, places)
}
