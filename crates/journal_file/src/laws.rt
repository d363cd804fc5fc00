// Laws of kept files: each is the contract of a function that does nothing.
ghost use Rattle.std.specs.Prelude.{◌≡◌, ℕ, List};
ghost use Rattle.journal_file.specs.Layout.{Kept, IsDamagedAt};

/// A file has one list of records.
pub fn a_file_has_one_list_of_records()
    ensures { (bytes : List ℕ) (lines others : List (List ℕ)) → Kept bytes lines → Kept bytes others
        → lines ≡ others }
{}

/// A damaged file has no list of records, and is damaged at one place.
pub fn a_damaged_file_has_none()
    ensures none { (bytes : List ℕ) (at : ℕ) (lines : List (List ℕ)) → IsDamagedAt bytes at
        → Kept bytes lines → ⊥ }
    ensures one { (bytes : List ℕ) (at again : ℕ) → IsDamagedAt bytes at → IsDamagedAt bytes again
        → at ≡ again }
{}
