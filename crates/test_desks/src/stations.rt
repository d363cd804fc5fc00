// Stations that edit a room, and have its desk bring the file up to a point.
ghost use Rattle.std.specs.Prelude.{◌≡◌, ◌<◌, Some};

use crate::lines::Letters;
use crate::watching::Quiet;
use cut_room::{Answer, Room};
use edit_journal::{Naming, Pass};
use kept_desk::{Desk, Filing, KeptDesk, Taken};
use room_disks::Disk;
use room_keepers::KeepFault;
use room_ports::OpenGate;
use std::alloc::Global;
use std::marker::Brand;
use std::sync::Wait;
use std::sync::ledger::{Blank, Ledger};
use step_count::Steps;

pub type Shared<D, J, K> = KeptDesk<D, Quiet, J, K, Letters>;

// A station: its pass, and the receipts that it has.
#[derive(Drop)]
pub struct Station<J: Naming<Quiet, u32>, K: Filing<u32>> {
    pass: Option<Pass<Quiet, J>>,
    last: Option<Taken<u32, K>>,
}

impl<J: Naming<Quiet, u32>, K: Filing<u32>> Station<J, K> {
    pub fn new(pass: Pass<Quiet, J>) -> Station<J, K> {
        Station {
            pass: Some(pass),
            last: None,
        }
    }
}

fn edit_counted<J: Naming<Quiet, u32>, K: Filing<u32>, R: Wait, L: Ledger>(
    ledger: Blank,
    rt: &R,
    alloc: Global,
    room: &Room<Quiet, J>,
    station: &mut Station<J, K>,
) -> u32
    requires { (ledger.name ≡ L.name) × (ledger.parts ≡ L.parts) × (0 < ledger.parts) }
{
    let mut steps = Steps::<L>::new(ledger);
    let Some(pass) = station.pass.take() else {
        return 0;
    };
    let call = pass.station();
    let number = pass.last().saturating_add(1);
    if pass.last() >= number {
        return 0;
    }
    let (pass, answer) = room.edit(rt, alloc, pass, number, call, &OpenGate, &mut steps);
    station.pass = Some(pass);
    match answer {
        Answer::Done { point, .. } => point.saturating_add(1),
        _ => 0,
    }
}

// The station's next edit, and how many entries stand up to it.
pub fn edit<J: Naming<Quiet, u32>, K: Filing<u32>, R: Wait>(
    rt: &R,
    alloc: Global,
    room: &Room<Quiet, J>,
    station: &mut Station<J, K>,
) -> u32 {
    edit_counted::<J, K, R, Brand>(Blank::new(1), rt, alloc, room, station)
}

// Has the file brought up to a point.
pub fn keep<D: Disk, J: Naming<Quiet, u32>, K: Filing<u32>, R: Wait>(
    rt: &R,
    alloc: Global,
    room: &Room<Quiet, J>,
    desk: &Shared<D, J, K>,
    station: &mut Station<J, K>,
    n: u32,
) -> Option<KeepFault>
    requires { J.opening ≡ Some (room.now.object, room.now.parts) }
{
    let last = station.last.take();
    let (kept, taken) = desk.keep(rt, alloc, room, n, last);
    station.last = Some(taken);
    kept.err()
}

// Takes the receipts of a station back.
pub fn settle<D: Disk, J: Naming<Quiet, u32>, K: Filing<u32>>(
    desk: &mut Desk<D, Quiet, J, K, Letters>,
    station: Station<J, K>,
) {
    let Station { pass: _, last } = station;
    match last {
        Some(taken) => desk.settle(taken),
        None => {}
    }
}
