// What a seat of the table knows, the rule of all seats, and how each kind of step changes what a seat knows.
use atomic_table::{Join, Play, Split, TableRule};

/// Whose seat it is.
pub enum Role {
    /// The one that counts.
    Clerk,
    /// One that has the clerk's numbers of some time.
    Receipt,
    /// Nobody's any more: the receipt was taken back.
    Spent,
}

/// How many records a file has as a table begins.
#[derive(Clone, Copy)]
pub struct Beginning {
    /// That many records.
    pub kept: u32,
}

// What a seat knows: the records and the failed appends of its time, and of the clerk the numbers of the receipt that
// it took back last. No value of it is made.
pub struct View {
    // Whose seat it is.
    pub role: Role,
    // The records that were counted.
    pub kept: u64,
    // The failed appends that were counted.
    pub failed: u64,
    // The records on the receipt that the clerk took back last.
    pub last_kept: u64,
    // The failed appends on that receipt.
    pub last_failed: u64,
}

// The rule that all seats of the table keep together: no receipt's numbers are above the clerk's.
pub struct Law;

impl TableRule<(), View, Beginning> for Law {
    ghost use Rattle.append_receipts.specs.Receipts.{clerk, Counted};

    ghost holds = { λ k s. Counted s.words s.views };

    ghost first = { λ k. clerk k.kept 0 };
}

// A store of the first word counts a record.
pub struct Keeps;

impl Play<(), View> for Keeps {
    ghost use Rattle.std.specs.Prelude.{◌≡◌};
    ghost use Rattle.append_receipts.specs.Receipts.{with_kept};

    ghost then = { λ s me n after. after ≡ (with_kept me.0, me.1) };
}

// A store of the second word counts a failed append.
pub struct Fails;

impl Play<(), View> for Fails {
    ghost use Rattle.std.specs.Prelude.{◌≡◌};
    ghost use Rattle.append_receipts.specs.Receipts.{with_failed};

    ghost then = { λ s me n after. after ≡ (with_failed me.0, me.1) };
}

// A split makes a receipt.
pub struct Gives;

impl Split<View> for Gives {
    ghost use Rattle.append_receipts.specs.Receipts.{receipt_of};

    ghost left = { λ v. v };

    ghost right = { receipt_of };
}

// A join takes one back, and spends it.
pub struct Takes;

impl Join<View> for Takes {
    ghost use Rattle.append_receipts.specs.Receipts.{with_receipt, spent};

    ghost both = { with_receipt };

    ghost spent = { spent };
}

// A load tells that the numbers of the receipt taken back last are at most the clerk's.
pub struct Compares;

impl Play<(), View> for Compares {
    ghost use Rattle.std.specs.Prelude.{◌≡◌};
    ghost use Rattle.append_receipts.specs.Receipts.{IsInOrder};

    ghost then = { λ s me n after. (after ≡ me) × IsInOrder me.0 };
}

// A split of a receipt makes another one like it.
pub struct Copies;

impl Split<View> for Copies {
    ghost use Rattle.append_receipts.specs.Receipts.{receipt_of};

    ghost left = { λ v. v };

    ghost right = { receipt_of };
}

// A load notes the records that are counted by then on a receipt, which are no fewer than it had.
pub struct Looks;

impl Play<(), View> for Looks {
    ghost use Rattle.std.specs.Prelude.{◌≡◌, ◌≤◌};
    ghost use Rattle.append_receipts.specs.Receipts.{with_seen};

    ghost then = { λ s me n after. (after ≡ (with_seen me.0 n, me.1)) × (me.0.kept ≤ n) };
}
