// A moment counted in frames, as a fraction, and its rounding.
ghost use Rattle.std.specs.Prelude.{◌≡◌, ℕ, ◌<◌, ◌≤◌, ◌*◌, ◌^◌, ℤ, pos, ◌*ℤ◌, ◌≤ℤ◌, unsigned_abs, ◌↔◌};

/// A moment as `over`/`under` frames of some rate, most often no whole number of them.
#[derive(Clone, Copy)]
pub struct Fraction {
    pub over: i128,
    pub under: i128,
    pub ghost over_in: { unsigned_abs over ≤ 10 ^ 36 },
    pub ghost under_in: { (pos 1 ≤ℤ under) × (under ≤ℤ pos (10 ^ 36)) },
}

impl Fraction {
    /// The greatest whole number of frames that is not above the fraction.
    pub fn floor(&self) -> i128
        ensures not_above { (result *ℤ self.now.under) ≤ℤ self.now.over }
        ensures greatest { (g : ℤ) → (g *ℤ self.now.under) ≤ℤ self.now.over → g ≤ℤ result }
        ensures size { unsigned_abs result ≤ 10 ^ 36 }
    {
        self.over.div_euclid(self.under)
    }

    /// The least whole number of frames that is not below the fraction.
    pub fn ceiling(&self) -> i128
        ensures not_below { self.now.over ≤ℤ (result *ℤ self.now.under) }
        ensures least { (g : ℤ) → self.now.over ≤ℤ (g *ℤ self.now.under) → result ≤ℤ g }
        ensures size { unsigned_abs result ≤ 10 ^ 36 }
    {
        let negative = Fraction {
            over: -self.over,
            under: self.under,
        };
        -negative.floor()
    }
}
