// What a seat makes of lines, breaks and replies.
use seat_lines::{MOST_KEPT, Memory, Saying, Seat, saying_of};
use std::alloc::Global;

// A line, and what it says to a seat.
const SAYINGS: [(&[u8], Saying); 10] = [
    (b"/leave", Saying::Leave),
    (b"/leave\r", Saying::Leave),
    (b"/leave ", Saying::Nothing),
    (b"/got 12", Saying::Got(12)),
    (b"/got 012\r", Saying::Got(12)),
    (b"/got 4294967296", Saying::Nothing),
    (b"/got", Saying::Nothing),
    (b"/got -1", Saying::Nothing),
    (b"point", Saying::Nothing),
    (b"", Saying::Nothing),
];

#[test]
fn lines_say_what_they_say(rt: HostRuntime) {
    for (line, says) in SAYINGS {
        assert_eq!(rt; saying_of(line), says, "{line:?}");
    }
}

// Has a seat take all bytes of a text, and reads the lines meanwhile into `read`.
fn bring(seat: &mut Seat, text: &[u8], read: &mut Vec<u8>) -> Result<(), Memory> {
    let mut rest = text;
    for _ in 0..text.len() {
        if rest.is_empty() || !seat.may_take() {
            return Ok(());
        }
        let taken = seat.take_in(rest);
        let (_, after) = rest.split_at(taken.min(rest.len()));
        rest = after;
        let mut piece = [0u8; 2_000];
        let n = seat.read(&mut piece);
        read.extend_from_slice(&piece[..n.min(2_000)])?;
    }
    Ok(())
}

// What a station brings over each of its connections, and what the session reads in all.
fn read_over(alloc: Global, connections: &[&[u8]]) -> Result<Vec<u8>, Memory> {
    let mut seat = Seat::new(alloc, 0);
    let mut read = Vec::new(alloc);
    for text in connections {
        seat.sit(0);
        bring(&mut seat, text, &mut read)?;
        seat.breaks();
    }
    Ok(read)
}

#[test]
fn what_has_not_ended_goes_with_its_connection(rt: HostRuntime) -> Result<(), Memory> {
    let cases: [(&[&[u8]], &[u8]); 5] = [
        (&[b"a\nb\n"], b"a\nb\n"),
        (&[b"a\nb", b"b\n"], b"a\nb\n"),
        (&[b"a\n", b"", b"b\n"], b"a\nb\n"),
        (&[b"a\n/got 0\nb\n/leave\nc\n", b"d\n"], b"a\nb\n"),
        (&[b"\n\r\n", b"/lea", b"ve\n"], b"\n\r\nve\n"),
    ];
    for (connections, wanted) in cases {
        let read = read_over(rt.alloc(), connections)?;
        assert_eq!(rt; read.as_slice(), wanted);
    }
    Ok(())
}

// A seat of a station whose last line had the number 7, to which its session has written these replies.
fn replied(alloc: Global, replies: &[&[u8]]) -> Result<Seat, Memory> {
    let mut seat = Seat::new(alloc, 7);
    for reply in replies {
        seat.make_room(reply.len());
        seat.put(reply)?;
    }
    Ok(seat)
}

#[test]
fn replies_come_from_the_one_after_got(rt: HostRuntime) -> Result<(), Memory> {
    let cases: [(u64, u64, &[u8]); 5] = [
        (0, 7, b"one\ntwo\nthr"),
        (7, 7, b"one\ntwo\nthr"),
        (8, 8, b"two\nthr"),
        (9, 9, b"thr"),
        (100, 9, b"thr"),
    ];
    for (got, before, unsent) in cases {
        let mut seat = replied(rt.alloc(), &[b"one\ntwo", b"\nthr"])?;
        assert_eq!(rt; seat.sit(got), before, "{got}");
        assert_eq!(rt; seat.unsent(), unsent, "{got}");
    }
    Ok(())
}

#[test]
fn replies_that_have_gone_out_are_let_go_of(rt: HostRuntime) -> Result<(), Memory> {
    let mut seat = replied(rt.alloc(), &[b"one\ntwo\nthree\n"])?;
    let mut read = Vec::new(rt.alloc());
    seat.sit(0);
    let n = seat.unsent().len().min(6);
    seat.send(n);
    bring(&mut seat, b"/got 10\n", &mut read)?;
    assert_eq!(rt; seat.unsent(), b"o\nthree\n".as_slice());
    assert_eq!(rt; seat.sit(0), 8);
    assert_eq!(rt; seat.unsent(), b"two\nthree\n".as_slice());
    Ok(())
}

#[test]
fn many_replies_are_let_go_of(rt: HostRuntime) -> Result<(), Memory> {
    let alloc = rt.alloc();
    let mut reply = Vec::with_capacity(alloc, 1_000_000)?;
    for _ in 0..999_999u32 {
        reply.push(b'x')?;
    }
    reply.push(b'\n')?;
    let mut seat = replied(alloc, &[&reply, &reply, &reply, &reply])?;
    assert_eq!(rt; seat.sit(0), 7);
    seat.breaks();
    assert_eq!(rt; seat.make_room(reply.len()), 3);
    seat.put(&reply)?;
    assert_eq!(rt; seat.sit(0), 10);
    assert!(rt; seat.unsent().len() <= MOST_KEPT);
    Ok(())
}

// 32 MiB in pieces of 1 KiB: to look at all that is kept with each of them would take minutes.
#[test]
fn a_long_reply_is_put_piece_by_piece(rt: HostRuntime) -> Result<(), Memory> {
    let alloc = rt.alloc();
    let mut piece = Vec::with_capacity(alloc, 1_024)?;
    for _ in 0..1_024u32 {
        piece.push(b'x')?;
    }
    let mut seat = replied(alloc, &[b"one\n"])?;
    seat.sit(0);
    for _ in 0..32_768u32 {
        seat.make_room(piece.len());
        seat.put(&piece)?;
        let n = seat.unsent().len();
        seat.send(n);
    }
    seat.put(b"\n")?;
    assert_eq!(rt; seat.sit(0), 8);
    assert_eq!(rt; seat.unsent().len(), 33_554_433);
    Ok(())
}
