// The counts that receipts tell of, with the table that they are kept in.
ghost use Rattle.std.specs.Prelude.{◌≡◌, ◌+◌, ◌≤◌, IfSome};
ghost use Rattle.room_ports.specs.Counts.{counted};

use append_receipts::{Clerk, Receipt, Receipts};
use std::marker::Model;

// The clerk, beside its own table. To contracts it is the clerk's counts.
#[derive(Drop)]
pub struct Counting {
    receipts: Receipts,
    clerk: Clerk,
}

impl Model for Counting {
    ghost use Rattle.std.specs.Prelude.{◌≡◌};
    ghost use Rattle.append_receipts.specs.States.{Counts};

    ghost Value = { Counts };

    ghost view = { λ c. c.clerk };

    ghost invariant = { λ c. c.clerk.table ≡ c.receipts };
}

impl Counting {
    pub fn new(receipts: Receipts, clerk: Clerk) -> Counting
        requires { clerk.table ≡ receipts }
        ensures { result ≡ clerk }
    {
        Counting { receipts, clerk }
    }

    // Counts so many records more.
    pub fn add_kept(&mut self, more: u32)
        requires { self.old.kept + more ≤ 100000 }
        ensures { self.new ≡ record self.old { kept = self.old.kept + more } }
    {
        for _ in 0..more {
            self.receipts.kept(&mut self.clerk);
        }
    }

    // Counts an append that failed.
    pub fn add_failed(&mut self)
        ensures { self.new ≡ record self.old { failed = counted self.old.failed } }
    {
        self.receipts.failed(&mut self.clerk);
    }

    // A receipt with the counts.
    pub fn give(&mut self) -> Receipt
        ensures receipt { result ≡ self.old }
        ensures same { self.new ≡ self.old }
    {
        self.receipts.give(&mut self.clerk)
    }

    // A share of the table; none where there is no memory for it.
    pub fn share(&self) -> Option<Receipts>
        ensures { IfSome result (λ table. table ≡ self.now.table) }
    {
        self.receipts.share().ok()
    }

    // Takes a receipt back, whose numbers are at most the counts.
    pub fn settle(&mut self, receipt: Receipt)
        requires { receipt.table ≡ self.old.table }
        ensures kept { receipt.kept ≤ self.old.kept }
        ensures failed { receipt.failed ≤ self.old.failed }
        ensures same { self.new ≡ self.old }
    {
        self.receipts.settle(&mut self.clerk, receipt);
    }
}
