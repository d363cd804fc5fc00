// Laws of numerals, with nothing to run.
ghost use Rattle.std.specs.Prelude.{◌≡◌, ℕ, ℤ};
ghost use Rattle.ratio_time.specs.Numerals.{SameNumber, HasLeastPlaces};

/// Two numerals of one number are the same numeral.
pub fn one_form()
    ensures { (m n : ℤ) (p q : ℕ) → HasLeastPlaces m p → HasLeastPlaces n q
        → SameNumber m p n q → (m ≡ n) × (p ≡ q) }
{}
