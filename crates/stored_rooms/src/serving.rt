// A room whose stations are served over a desk with its kept file.
ghost use Rattle.std.specs.Prelude.{◌≡◌, ◌+◌, ◌≤◌, ℕ, List, Some, length};
ghost use Rattle.command_files.specs.Ports.{DiskTold, disk_told};
ghost use Rattle.otio_json.specs.declared.opening.Opening.{Opening as OpeningOf};
ghost use Rattle.room_halls.specs.Stations.{HallTold};
ghost use Rattle.served_rooms.specs.Seated.{AreOrigins, CanAllBegin, HasSeated, HaveServed};
ghost use Rattle.station_sessions.specs.Served.{IsRoomOf};
ghost use Rattle.station_sessions.specs.SessionInside.{TrackPass};
ghost use Rattle.stored_rooms.specs.Inside.{DeskEnds, IsOpenFile};

use crate::closing::{CutDesk, CutKeeper, close_room};
use command_files::Status;
use cut_room::Room;
use cut_steps::{CutCall, CutObject, CutPart};
use edit_journal::{Naming, Pass};
use kept_desk::{Filing, KeptDesk};
use room_disks::Disk;
use room_halls::Hall;
use room_ports::Gate;
use served_rooms::{Left, SeatedStations, seat_stations, serve_seated};
use station_sessions::Setting;
use std::alloc::Global;
use std::sync::Wait;
use std::thread::Threads;

// Puts the desk behind its lock, while the stations that are seated are served.
fn serve_kept<
    R: Threads + Wait + Sync,
    D: Disk + Send,
    H: Hall,
    G: Gate + Sync,
    J: Naming<CutObject, CutPart> + Send + Sync,
    K: Filing<CutCall> + Send + Sync,
>(
    rt: &R,
    alloc: Global,
    room: &Room<CutObject, J>,
    seats: SeatedStations<H::Line, J, CutKeeper<D, J, K>>,
    desk: CutDesk<D, J, K>,
    setting: Setting,
    hall: &mut H,
    gate: &G,
) -> (Status, Vec<Left<J, CutKeeper<D, J, K>>>, CutDesk<D, J, K>)
    requires room { J.opening ≡ Some (room.now.object, room.now.parts) }
    requires seated { (before : HallTold) × (passes : List TrackPass)
        × HasSeated before (H.told hall.old) passes seats × CanAllBegin room.now passes }
    ensures served { (before : HallTold) (passes : List TrackPass)
        → HasSeated before (H.told hall.old) passes seats → CanAllBegin room.now passes
        → HaveServed room.now setting.counting setting.start (length K.kept) (λ fault. Unit {0})
        passes result.1.items before (H.told hall.new) result.0 }
    ensures opened { (H.told hall.new).opened ≡ (H.told hall.old).opened }
{
    let keeper = KeptDesk::new(desk);
    let (status, left) = serve_seated(rt, alloc, room, seats, setting, hall, gate, &keeper);
    (status, left, keeper.close())
}

// The disk of a desk that nobody has used.
fn disk_of<D: Disk + Drop, J: Naming<CutObject, CutPart>, K: Filing<CutCall>>(
    desk: CutDesk<D, J, K>,
) -> D
    ensures { result ≡ desk.file.disk }
{
    let (file, _) = desk.close();
    file.close()
}

// Serves the stations of a room that goes on from kept entries, over a desk with the file, and closes the room and the
// file. The memory for the passes is taken before the hall is opened, so that each session's end is followed by the
// closing.
pub(crate) fn serve_desk<
    R: Threads + Wait + Sync,
    D: Disk + Send + Drop,
    H: Hall,
    G: Gate + Sync,
    J: Naming<CutObject, CutPart> + Send + Sync,
    K: Filing<CutCall> + Send + Sync,
>(
    rt: &R,
    alloc: Global,
    room: Room<CutObject, J>,
    passes: Vec<Pass<CutObject, J>>,
    desk: CutDesk<D, J, K>,
    setting: Setting,
    address: &str,
    hall: &mut H,
    gate: &G,
) -> (Status, D)
    requires room { J.opening ≡ Some (room.object, room.parts) }
    requires stations { room.stations ≡ length passes.items + 1 }
    requires few { length passes.items ≤ 16 }
    requires passes { CanAllBegin room passes.items }
    requires reader { K.reader ≡ length passes.items }
    requires begun { K.begun ≡ D.course desk.file.disk }
    requires faults { K.faults ≡ D.faults desk.file.disk }
    ensures { (o : OpeningOf) (name : List ℕ) (before : DiskTold) (records : List (List ℕ))
        → IsRoomOf o room setting.counting setting.start → AreOrigins K.kept passes.items
        → IsOpenFile D.course D.faults name before desk.file records
        → DeskEnds o K.kept (length passes.items) address.now name records
        before (disk_told D.file D.course D.faults result.1)
        (H.told hall.old) (H.told hall.new) result.0 }
{
    let back = match Vec::with_capacity(alloc, passes.len() + 1) {
        Ok(back) => back,
        Err(_) => return (Status::OutOfMemory, disk_of(desk)),
    };
    let seats = match seat_stations::<H, J, CutKeeper<D, J, K>>(alloc, passes, address, hall) {
        Ok(seats) => seats,
        Err(status) => return (status, disk_of(desk)),
    };
    let (status, left, desk) = serve_kept(rt, alloc, &room, seats, desk, setting, hall, gate);
    (status, close_room(room, desk, left, back))
}
