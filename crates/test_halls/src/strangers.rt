// Who gets no seat, and takes none from who has one.
use crate::clients::{hears, is_over, said};
use crate::rooms::{Room, opened, told_lines};
use crate::sessions::talks;
use room_halls::Hall;
use std::fs::File;
use std::net::TcpStream;
use std::test::Fail;
use std::time::{Duration, Instant};

// Whether a guest that pings is told which program it has reached, and nothing more, and ann goes on.
fn answers_a_ping<H: Hall>(rt: &HostRuntime, hall: &mut H) -> Option<bool> {
    let at = opened(rt, hall, "127.0.0.1:0")?;
    let mut line = hall.seat_station(rt.alloc(), 0).ok()?;
    let ann = said(rt, at, "sit ann 0123456789abcdef 0\n")?;
    let is_seated = hears(&ann, "seat 0 0 1\n");
    let guest = said(rt, at, "ping\n")?;
    let is_answered = hears(&guest, "cutroom\n") && is_over(&guest);
    Some(is_seated && is_answered && talks(&ann, &mut line))
}

#[test]
fn a_ping_is_answered_and_takes_no_seat(rt: HostRuntime) -> Result<(), Fail> {
    let told = File::create(&rt, "told")?;
    let room = Room::new(&rt, Some(0)).ok_or("a room")?;
    let mut hall = room.hall(&rt, &told);
    let holds = room.while_tended(&rt, &told, || answers_a_ping(&rt, &mut hall));
    assert!(rt; holds == Some(true));
    // Where it listens, and that ann sat down.
    assert!(rt; told_lines(&rt, "cutroom: ") == 2);
    Ok(())
}

// Whether a stranger is told that there is no seat for it, and nothing more, after a second.
fn is_turned_away(rt: &HostRuntime, stranger: &TcpStream, since: Instant) -> bool {
    hears(stranger, "no seat\n")
        && is_over(stranger)
        && since
            .elapsed(rt)
            .is_ok_and(|time| time >= Duration::from_secs(1))
}

// Whether who has a wrong name or a wrong key is turned away, and ann goes on.
fn turns_away<H: Hall>(rt: &HostRuntime, hall: &mut H) -> Option<bool> {
    let at = opened(rt, hall, "127.0.0.1:0")?;
    let mut line = hall.seat_station(rt.alloc(), 0).ok()?;
    let ann = said(rt, at, "sit ann 0123456789abcdef 0\n")?;
    let is_seated = hears(&ann, "seat 0 0 1\n");
    let since = Instant::now(rt).ok()?;
    let eve = said(rt, at, "sit eve 0123456789abcdef 0\n")?;
    let thief = said(rt, at, "sit ann fedcba9876543210 0\n")?;
    let are_away = is_turned_away(rt, &eve, since) && is_turned_away(rt, &thief, since);
    Some(is_seated && are_away && talks(&ann, &mut line))
}

#[test]
fn a_wrong_name_or_key_gets_no_seat(rt: HostRuntime) -> Result<(), Fail> {
    let told = File::create(&rt, "told")?;
    let room = Room::new(&rt, Some(0)).ok_or("a room")?;
    let mut hall = room.hall(&rt, &told);
    let holds = room.while_tended(&rt, &told, || turns_away(&rt, &mut hall));
    assert!(rt; holds == Some(true));
    assert!(rt; told_lines(&rt, "cutroom: no seat for 127.0.0.1:") == 2);
    assert!(rt; told_lines(&rt, ": a wrong name or key") == 2);
    // No key is told.
    assert!(rt; told_lines(&rt, "fedcba9876543210") == 0);
    Ok(())
}
