// What who took the lock goes away with.
ghost use Rattle.std.specs.Prelude.{◌≡◌, IfOk, IfErr};
ghost use Rattle.kept_desk.specs.Desks.{GoesOnFrom};

use crate::Filing;
use append_receipts::{Receipt, Receipts};
use std::marker::{Model, PhantomData};

/// The receipts of a taking of the lock, or of a look at the table beside it: one of its beginning and one of its end,
/// both of this file's table. Contracts see the counts of both.
#[derive(Drop)]
pub struct Taken<C, K: Filing<C>> {
    pub(crate) before: Receipt,
    pub(crate) after: Receipt,
    pub(crate) kept: u64,
    // A share of the table, by which who has these receipts looks at it. There is none where no memory was for it.
    pub(crate) table: Option<Receipts>,
    pub(crate) of: PhantomData<(C, K)>,
}

impl<C, K: Filing<C>> Model for Taken<C, K> {
    ghost use Rattle.std.specs.Prelude.{◌≡◌, ◌≤◌, length, IfSome};
    ghost use Rattle.kept_desk.specs.Desks.{Taking};

    ghost Value = { Taking };

    ghost view = { λ t. record { before = t.before; after = t.after } };

    ghost invariant = { λ t. (t.before.table ≡ K.table) × (t.after.table ≡ K.table)
        × (t.kept ≡ t.after.kept) × (length K.kept ≤ t.after.kept)
        × IfSome t.table (λ table. table ≡ K.table) };
}

impl<C, K: Filing<C>> Taken<C, K> {
    /// How many records the file had as the taking ended. It has at least so many from then on, so who asks for no more
    /// need not take the lock.
    pub fn kept(&self) -> u64
        ensures { result ≡ self.now.after.kept }
    {
        self.kept
    }

    /// Looks at the table how many records the file has by now. Nobody waits for it, and nobody's append is disturbed.
    /// Where there is no share of the table these receipts come back as they are.
    pub fn look(self) -> Result<Taken<C, K>, Taken<C, K>>
        ensures looked { IfOk result (λ t. GoesOnFrom self t) }
        ensures same { IfErr result (λ t. t ≡ self) }
    {
        let Taken {
            before,
            mut after,
            kept,
            table,
            of,
        } = self;
        match table {
            Some(table) => {
                let now = table.copy(&mut after);
                let kept = table.look(&mut after);
                Ok(Taken {
                    before: now,
                    after,
                    kept,
                    table: Some(table),
                    of,
                })
            }
            None => Err(Taken {
                before,
                after,
                kept,
                table,
                of,
            }),
        }
    }
}
