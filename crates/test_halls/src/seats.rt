// Who has a seat, and what its station and its session say to each other.
use crate::clients::{hears, is_over, said, says};
use crate::rooms::{Room, opened, told_lines};
use crate::sessions::{answers, gets, talks};
use room_halls::{Hall, HallLine};
use room_ports::Line;
use std::fs::File;
use std::net::TcpStream;
use std::test::Fail;

// Whether ann, who has sent no line, and bo, who has sent seven, each have a seat and a session.
fn seats_both<H: Hall>(rt: &HostRuntime, hall: &mut H) -> Option<bool> {
    let at = opened(rt, hall, "127.0.0.1:0")?;
    let mut first = hall.seat_station(rt.alloc(), 0).ok()?;
    let mut second = hall.seat_station(rt.alloc(), 1).ok()?;
    let bo = said(rt, at, "sit bo fedcba9876543210 0\n")?;
    let ann = said(rt, at, "sit ann 0123456789abcdef 0\n")?;
    let are_seated = hears(&ann, "seat 0 0 1\n") && hears(&bo, "seat 1 7 8\n");
    Some(are_seated && talks(&ann, &mut first) && talks(&bo, &mut second))
}

#[test]
fn each_station_has_the_seat_of_its_name_and_key(rt: HostRuntime) -> Result<(), Fail> {
    let told = File::create(&rt, "told")?;
    let room = Room::new(&rt, Some(7)).ok_or("a room")?;
    let mut hall = room.hall(&rt, &told);
    let holds = room.while_tended(&rt, &told, || seats_both(&rt, &mut hall));
    assert!(rt; holds == Some(true));
    assert!(rt; told_lines(&rt, "cutroom: station 0 sat down, from 127.0.0.1:") == 1);
    assert!(rt; told_lines(&rt, "cutroom: station 1 sat down, from 127.0.0.1:") == 1);
    Ok(())
}

// Whether ann sits there, and each of its lines is answered.
fn works<L: Line>(ann: &TcpStream, line: &mut L) -> bool {
    hears(ann, "seat 0 0 1\n")
        && says(ann, "slice 0 10\n")
        && answers(line, "slice 0 10\n", "ok 0\n")
        && says(ann, "slice 0 20\n")
        && answers(line, "slice 0 20\n", "ok 1\n")
}

// Whether ann, who has got one of two replies, gets the other one and the next over this connection.
fn goes_on<L: Line>(ann: &TcpStream, line: &mut L) -> bool {
    hears(ann, "seat 0 2 2\n")
        && says(ann, "slice 0 30\n")
        && answers(line, "slice 0 30\n", "ok 2\n")
        && hears(ann, "ok 1\nok 2\n")
}

// Whether ann works over a connection, takes its own seat over by another one, and goes on there.
fn takes_over<H: Hall>(rt: &HostRuntime, hall: &mut H) -> Option<bool> {
    let at = opened(rt, hall, "127.0.0.1:0")?;
    let mut line = hall.seat_station(rt.alloc(), 0).ok()?;
    let old = said(rt, at, "sit ann 0123456789abcdef 0\n")?;
    let has_worked = works(&old, &mut line);
    let new = said(rt, at, "sit ann 0123456789abcdef 1\n")?;
    let is_alone = hears(&old, "ok 0\nok 1\n") && is_over(&old);
    Some(has_worked && is_alone && goes_on(&new, &mut line))
}

#[test]
fn who_sits_down_again_goes_on_where_it_was(rt: HostRuntime) -> Result<(), Fail> {
    let told = File::create(&rt, "told")?;
    let room = Room::new(&rt, Some(0)).ok_or("a room")?;
    let mut hall = room.hall(&rt, &told);
    let holds = room.while_tended(&rt, &told, || takes_over(&rt, &mut hall));
    assert!(rt; holds == Some(true));
    Ok(())
}

// Whether a session answers the line that came with its station's first one, gets the end after it, and lets its station
// go.
fn lets_go<L: HallLine>(ann: &TcpStream, line: &mut L) -> bool {
    let has_ended = answers(line, "point\n", "point 0\n") && gets(line, "");
    line.leave();
    has_ended && hears(ann, "seat 0 0 1\npoint 0\n") && is_over(ann)
}

// Whether ann leaves, and gets no seat any more.
fn leaves<H: Hall>(rt: &HostRuntime, hall: &mut H) -> Option<bool> {
    let at = opened(rt, hall, "127.0.0.1:0")?;
    let mut line = hall.seat_station(rt.alloc(), 0).ok()?;
    let ann = said(rt, at, "sit ann 0123456789abcdef 0\npoint\n/leave\n")?;
    let has_left = lets_go(&ann, &mut line);
    let again = said(rt, at, "sit ann 0123456789abcdef 1\n")?;
    Some(has_left && hears(&again, "no seat\n") && is_over(&again))
}

#[test]
fn a_station_that_leaves_does_not_come_back(rt: HostRuntime) -> Result<(), Fail> {
    let told = File::create(&rt, "told")?;
    let room = Room::new(&rt, Some(0)).ok_or("a room")?;
    let mut hall = room.hall(&rt, &told);
    let holds = room.while_tended(&rt, &told, || leaves(&rt, &mut hall));
    assert!(rt; holds == Some(true));
    assert!(rt; told_lines(&rt, "cutroom: station 0 left") == 1);
    assert!(rt; told_lines(&rt, ": its station has left") == 1);
    Ok(())
}
