// Where a hall listens, and when it does not.
ghost use Rattle.std.specs.Prelude.{◌≡◌, true};
ghost use Rattle.room_ports.specs.Counts.{HasRisen};

use crate::rooms::{Room, opened};
use room_halls::Hall;
use std::fs::{self, File};
use std::net::{IpAddr, SocketAddr, TcpStream};
use std::test::Fail;

// An address at which a hall is opened, and the host at which it listens then.
const HOSTS: [(&str, [u8; 4]); 4] = [
    ("127.0.0.1:0", [127, 0, 0, 1]),
    ("127.0.0.2:0", [127, 0, 0, 2]),
    ("crew@127.0.0.1:0", [127, 0, 0, 1]),
    ("a@b/127.0.0.1:0@127.0.0.3:0", [127, 0, 0, 3]),
];

// Whether who connects to this port of a host comes in.
fn lets_in(rt: &HostRuntime, host: [u8; 4], port: u16) -> bool {
    TcpStream::connect(rt, SocketAddr::new(IpAddr::from(host), port)).is_ok()
}

#[test]
fn a_hall_listens_at_the_host_that_it_is_told(rt: HostRuntime) -> Result<(), Fail> {
    for (address, host) in HOSTS {
        let told = File::create(&rt, "told")?;
        let room = Room::new(&rt, Some(0)).ok_or("a room")?;
        let mut hall = room.hall(&rt, &told);
        let at = opened(&rt, &mut hall, address).ok_or("a hall")?;
        assert!(rt; at.ip() == IpAddr::from(host), "{address}");
        assert!(rt; lets_in(&rt, host, at.port()), "{address}");
        assert!(rt; !lets_in(&rt, [127, 0, 0, 9], at.port()), "{address}");
    }
    Ok(())
}

// Whether a hall is not opened at this address. It counts a fault then, which the proof alone can see.
fn stays_closed<H: Hall>(hall: &mut H, address: &str) -> bool
    ensures { result ≡ true → HasRisen (H.told hall.old).faults (H.told hall.new).faults }
{
    match hall.open(address) {
        Ok(()) => false,
        Err(_) => true,
    }
}

#[test]
fn a_hall_whose_numbers_are_not_known_stays_closed(rt: HostRuntime) -> Result<(), Fail> {
    let told = File::create(&rt, "told")?;
    let room = Room::new(&rt, None).ok_or("a room")?;
    let mut hall = room.hall(&rt, &told);
    assert!(rt; stays_closed(&mut hall, "127.0.0.1:0"));
    assert_eq!(rt; fs::read_to_string(&rt, "told")?.as_str(), "");
    Ok(())
}

#[test]
fn a_hall_tells_at_which_address_it_can_t_listen(rt: HostRuntime) -> Result<(), Fail> {
    let told = File::create(&rt, "told")?;
    let room = Room::new(&rt, Some(0)).ok_or("a room")?;
    let mut hall = room.hall(&rt, &told);
    assert!(rt; stays_closed(&mut hall, "crew@127.0.0.1"));
    let text = fs::read_to_string(&rt, "told")?;
    assert!(rt; text.as_str().starts_with("cutroom: 127.0.0.1: "));
    Ok(())
}
