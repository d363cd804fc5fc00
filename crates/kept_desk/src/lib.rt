//! A desk with a kept file, where what a room has done outlives a stop: behind one lock an open kept file, a pass of the
//! room that reads the room's journal for it, and the counts that receipts tell of. Any station takes the lock and has
//! the file brought up to a point; it takes the lines of all entries that there are by then, and who waits for these waits
//! for that append, so many stations share a sync. The desk knows no object: how an entry reads is told by a trait.
//!
//! [`KeptDesk::keep`] is the main contract, by which a desk is what keeps a room's journal. Once it has answered `Ok` for
//! a point, the file has that many records, as the receipt tells that it gives; these are the lines of the first entries
//! of the room's journal, as [`KeptDesk::close`] tells of the file when all stations are done. Where the disk fails, the
//! receipts tell that too, and the lines that were to be put are taken up again by whoever comes next.
#![tactic(auto)]

mod batches;
mod counting;
mod desk;
mod entry_lines;
mod filing;
mod held_pass;
mod keeping;
mod kept_desk;
mod taken;
mod turns;

pub use desk::Desk;
pub use entry_lines::EntryLines;
pub use filing::Filing;
pub use kept_desk::KeptDesk;
pub use taken::Taken;
