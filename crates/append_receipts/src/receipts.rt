// The table, the clerk and the receipts.
ghost use Rattle.std.specs.Prelude.{◌≡◌, ◌<◌, ◌≤◌, ◌+◌, IfOk};
ghost use Rattle.room_ports.specs.Counts.{counted};

use crate::view::{Beginning, Compares, Copies, Fails, Gives, Keeps, Law, Looks, Takes, View};
use atomic_table::{Seat, Table};
use room_ports::Memory;
use std::alloc::Global;
use std::marker::Model;
use std::sync::Arc;

/// The most records that are counted.
pub const MOST_KEPT: u32 = 100_000;

/// The table of a clerk, or a share of it, for who looks at it beside the clerk. To a contract it is the table's name.
#[derive(Drop)]
pub struct Receipts {
    words: Arc<Table<(), View, Beginning, Law, Global>>,
}

impl Model for Receipts {
    ghost use Rattle.std.specs.Prelude.{◌≡◌};
    ghost use Rattle.std.specs.Arc.{arc_value};
    ghost use Rattle.atomic_table.specs.Seated.{TableId};

    ghost Value = { TableId };

    ghost view = { λ r. (arc_value r.words).shared.table_id };

    ghost invariant = { λ r. (arc_value r.words).shared.table_id.words ≡ 2 };
}

/// The one who counts. Contracts see the table, and how many records and failed appends were counted.
#[derive(Drop)]
pub struct Clerk {
    seat: Seat<(), View>,
    kept: u32,
    failed: u64,
}

impl Model for Clerk {
    ghost use Rattle.std.specs.Prelude.{◌≡◌, []};
    ghost use Rattle.append_receipts.specs.States.{Counts};
    ghost use Rattle.append_receipts.specs.declared.view.Role.TheVariants as roles;

    ghost Value = { Counts };

    ghost view = { λ c. record { table = c.seat.table_id; kept = c.kept; failed = c.failed } };

    ghost invariant = { λ c. (c.seat.me.1 ≡ []) × (c.seat.me.0.role ≡ roles.Clerk)
        × (c.seat.me.0.kept ≡ c.kept) × (c.seat.me.0.failed ≡ c.failed) };
}

/// The clerk's numbers of some time. Contracts see the table and these two numbers.
#[derive(Drop)]
pub struct Receipt {
    seat: Seat<(), View>,
}

impl Model for Receipt {
    ghost use Rattle.std.specs.Prelude.{◌≡◌, []};
    ghost use Rattle.append_receipts.specs.States.{Counts};
    ghost use Rattle.append_receipts.specs.declared.view.Role.TheVariants as roles;

    ghost Value = { Counts };

    ghost view = { λ r. record {
      table = r.seat.table_id;
      kept = r.seat.me.0.kept;
      failed = r.seat.me.0.failed;
    } };

    ghost invariant = { λ r. (r.seat.me.1 ≡ []) × (r.seat.me.0.role ≡ roles.Receipt) };
}

impl Receipts {
    /// A table and its clerk, who has counted so many records and no failed append.
    pub fn open(alloc: Global, kept: u32) -> Result<(Receipts, Clerk), Memory>
        requires { kept ≤ 100000 }
        ensures { IfOk result (λ r. r.1 ≡ record { table = r.0; kept = kept; failed = 0 }) }
    {
        let beginning = Beginning { kept };
        let (words, seat) = Table::<(), View, Beginning, Law, Global>::of_words(
            alloc,
            &[u64::from(kept), 0],
            &beginning,
        )?;
        let words = Arc::new(alloc, words)?;
        let clerk = Clerk {
            seat,
            kept,
            failed: 0,
        };
        Ok((Receipts { words }, clerk))
    }

    /// The same table, for who looks at it beside the clerk.
    pub fn share(&self) -> Result<Receipts, Memory>
        ensures { IfOk result (λ r. r ≡ self.now) }
    {
        Ok(Receipts {
            words: self.words.clone()?,
        })
    }

    /// Counts one record more.
    pub fn kept(&self, clerk: &mut Clerk)
        requires table { clerk.old.table ≡ self.now }
        requires below { clerk.old.kept < 100000 }
        ensures { clerk.new ≡ record clerk.old { kept = clerk.old.kept + 1 } }
    {
        let kept = clerk.kept + 1;
        self.words
            .shared
            .store::<Keeps>(&mut clerk.seat, 0, u64::from(kept));
        clerk.kept = kept;
    }

    /// Counts one failed append more; the count stays at the greatest u64.
    pub fn failed(&self, clerk: &mut Clerk)
        requires { clerk.old.table ≡ self.now }
        ensures { clerk.new ≡ record clerk.old { failed = counted clerk.old.failed } }
    {
        if clerk.failed == u64::MAX {
            return;
        }
        let failed = clerk.failed + 1;
        self.words.shared.store::<Fails>(&mut clerk.seat, 1, failed);
        clerk.failed = failed;
    }

    /// Gives out a receipt with the clerk's numbers as they are.
    pub fn give(&self, clerk: &mut Clerk) -> Receipt
        requires { clerk.old.table ≡ self.now }
        ensures receipt { result ≡ clerk.old }
        ensures clerk { clerk.new ≡ clerk.old }
    {
        Receipt {
            seat: self.words.shared.split_seat::<Gives>(&mut clerk.seat),
        }
    }

    /// Another receipt with the numbers of this one. Nobody waits for it.
    pub fn copy(&self, receipt: &mut Receipt) -> Receipt
        requires { receipt.old.table ≡ self.now }
        ensures copy { result ≡ receipt.old }
        ensures same { receipt.new ≡ receipt.old }
    {
        Receipt {
            seat: self.words.shared.split_seat::<Copies>(&mut receipt.seat),
        }
    }

    /// Looks how many records the clerk has counted by now, and notes that on a receipt. Nobody waits for it.
    pub fn look(&self, receipt: &mut Receipt) -> u64
        requires { receipt.old.table ≡ self.now }
        ensures kept { receipt.new ≡ record receipt.old { kept = result } }
        ensures rises { receipt.old.kept ≤ result }
    {
        self.words.shared.load::<Looks>(&mut receipt.seat, 0)
    }

    /// Takes a receipt back. Its numbers are at most the clerk's.
    pub fn settle(&self, clerk: &mut Clerk, receipt: Receipt)
        requires table { clerk.old.table ≡ self.now }
        requires receipt { receipt.table ≡ self.now }
        ensures kept { receipt.kept ≤ clerk.old.kept }
        ensures failed { receipt.failed ≤ clerk.old.failed }
        ensures clerk { clerk.new ≡ clerk.old }
    {
        let Receipt { seat } = receipt;
        self.words.shared.join_seat::<Takes>(&mut clerk.seat, seat);
        let _ = self.words.shared.load::<Compares>(&mut clerk.seat, 0);
    }
}
