// A room that is closed, and with it the desk with its kept file.
ghost use Rattle.std.specs.Prelude.{◌≡◌, ◌+◌, ◌<◌, ◌≤◌, [], ℕ, Some, length, map, slice_get, vec_capacity};
ghost use Rattle.kept_desk.specs.Desks.{failures, upto};
ghost use Rattle.served_rooms.specs.Seated.{LeftState};
ghost use Rattle.station_sessions.specs.Rooms.{History};
ghost use Rattle.stored_rooms.specs.Inside.{ClosesKept};

use cut_room::Room;
use cut_steps::{CutCall, CutObject, CutPart};
use edit_journal::{Naming, Pass};
use kept_desk::{Desk, Filing, KeptDesk, Taken};
use kept_lines::CutLines;
use room_disks::Disk;
use served_rooms::Left;

/// The desk of a cutting room, and the desk behind its lock.
pub(crate) type CutDesk<D, J, K> = Desk<D, CutObject, J, K, CutLines>;

/// The desk of a cutting room behind its lock.
pub(crate) type CutKeeper<D, J, K> = KeptDesk<D, CutObject, J, K, CutLines>;

// Takes back what a station took, where it took anything.
fn settle_one<D: Disk, J: Naming<CutObject, CutPart>, K: Filing<CutCall>>(
    desk: &mut CutDesk<D, J, K>,
    taken: Option<Taken<CutCall, K>>,
)
    ensures held { length K.kept ≤ desk.new.file.count
        → upto (length K.kept) taken ≤ desk.new.file.count }
    ensures failed { failures taken ≤ desk.new.counts.failed }
    ensures same { desk.new ≡ desk.old }
{
    match taken {
        Some(taken) => desk.settle(taken),
        None => {}
    }
}

// Takes back what the stations took, and takes their passes.
fn settle_all<D: Disk, J: Naming<CutObject, CutPart>, K: Filing<CutCall> + Send>(
    desk: &mut CutDesk<D, J, K>,
    left: Vec<Left<J, CutKeeper<D, J, K>>>,
    passes: &mut Vec<Pass<CutObject, J>>,
)
    requires none { passes.old.items ≡ [] }
    requires room { length left.items < vec_capacity passes.old }
    ensures passes { passes.new.items ≡ map (λ l. l.pass) left.items }
    ensures room { vec_capacity passes.new ≡ vec_capacity passes.old }
    ensures held { (k : ℕ) (l : LeftState) → slice_get left.items k ≡ Some l
        → length K.kept ≤ desk.new.file.count → l.holding.held ≤ desk.new.file.count }
    ensures failed { (k : ℕ) (l : LeftState) → slice_get left.items k ≡ Some l
        → l.holding.failures ≤ desk.new.counts.failed }
    ensures same { desk.new ≡ desk.old }
{
    for station in left {
        let (pass, taken) = station.into_parts();
        passes.push_reserved(pass);
        settle_one(desk, taken);
    }
}

// Closes a room with what is left of its stations and with the pass of the desk, and gives the desk's disk.
pub(crate) fn close_room<D: Disk + Drop, J: Naming<CutObject, CutPart>, K: Filing<CutCall> + Send>(
    room: Room<CutObject, J>,
    desk: CutDesk<D, J, K>,
    left: Vec<Left<J, CutKeeper<D, J, K>>>,
    passes: Vec<Pass<CutObject, J>>,
) -> D
    requires room { J.opening ≡ Some (room.object, room.parts) }
    requires stations { room.stations ≡ length left.items + 1 }
    requires numbers { (k : ℕ) (l : LeftState) → slice_get left.items k ≡ Some l
        → l.pass.number ≡ k }
    requires reader { K.reader ≡ length left.items }
    requires none { passes.items ≡ [] }
    requires space { length left.items < vec_capacity passes }
    ensures { (h : History) × (held : ℕ) × ClosesKept D.course D.faults K.kept K.begun K.faults
        room left.items result h held }
{
    let (mut desk, mut passes) = (desk, passes);
    settle_all(&mut desk, left, &mut passes);
    let (file, reader) = desk.close();
    passes.push_reserved(reader);
    room.close(passes);
    file.close()
}
