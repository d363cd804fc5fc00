// What each hall answers, call by call.
use room_halls::{Hall, HallFault, HallLine, MemHall, SureHall, SurePair, TcpHall};
use room_ports::{
    Gate, Line, MemLine, MemSink, MemSource, Memory, OpenGate, Sink, Source, SureSink, SureSource,
    put,
};
use std::alloc::{AllocError, Global};
use std::fs::{self, File};
use std::io::{self, Read, Write};
use std::net::{Net, Shutdown, SocketAddr, TcpListener, TcpStream};
use std::sync::atomic::{AtomicU64, Ordering};
use std::test::Fail;
use std::time::Duration;

// One piece of these bytes.
fn piece_of(alloc: Global, text: &str) -> Result<Vec<Vec<u8>>, AllocError> {
    let mut piece = Vec::new(alloc);
    piece.extend_from_slice(text.as_bytes())?;
    let mut pieces = Vec::new(alloc);
    pieces.push(piece)?;
    Ok(pieces)
}

// Writes back to a line what came from it: the bytes with `/` after them, `!` where the write failed.
fn sent_back<L: Line>(alloc: Global, line: &mut L, came: &[u8]) -> Result<Vec<u8>, AllocError> {
    if put(line, came).is_err() {
        return Vec::from_slice(alloc, b"!");
    }
    let mut log = Vec::from_slice(alloc, came)?;
    log.push(b'/')?;
    Ok(log)
}

// Reads once from a line and writes back what came, `!` where the read failed.
fn echo<L: Line>(alloc: Global, line: &mut L) -> Result<Vec<u8>, AllocError> {
    let mut buffer = [0u8; 16];
    let count = line.read(&mut buffer).unwrap_or(17);
    match buffer.get(0..count) {
        Some(came) => sent_back(alloc, line, came),
        None => Vec::from_slice(alloc, b"!"),
    }
}

// Seats a station, lets it echo once and stand up: what it echoed, `!` where it was not seated and `?` where there was
// no memory.
fn visit<H: Hall>(alloc: Global, hall: &mut H, station: u32) -> Result<Vec<u8>, AllocError> {
    match hall.seat_station(alloc, station) {
        Ok(line) => {
            let mut line = line;
            let log = echo(alloc, &mut line);
            hall.stand_up(station, line);
            log
        }
        Err(HallFault::Failed) => Vec::from_slice(alloc, b"!"),
        Err(HallFault::Memory) => Vec::from_slice(alloc, b"?"),
    }
}

// Opens a hall and lets stations visit it, one after the other: `.` or `!`, and then what each visit gave.
fn hall_log<H: Hall>(
    alloc: Global,
    hall: &mut H,
    address: &str,
    stations: &[u32],
) -> Result<Vec<u8>, AllocError> {
    let mut log = Vec::new(alloc);
    match hall.open(address) {
        Ok(()) => log.push(b'.')?,
        Err(_) => log.push(b'!')?,
    }
    for station in stations {
        let visited = visit(alloc, hall, *station)?;
        log.extend_from_slice(&visited)?;
    }
    Ok(log)
}

// Two lines, with these bytes to read.
fn two_lines(alloc: Global) -> Result<Vec<MemLine>, AllocError> {
    let mut lines = Vec::new(alloc);
    for text in ["abc", "de"] {
        lines.push(MemLine {
            input: MemSource::new(piece_of(alloc, text)?, Vec::new(alloc)),
            output: MemSink::new(alloc, Vec::new(alloc)),
        })?;
    }
    Ok(lines)
}

#[test]
fn a_hall_over_memory_keeps_its_lines(rt: HostRuntime) -> Result<(), AllocError> {
    let alloc = rt.alloc();
    // failing calls, stations, the log
    let cases: [(&[u32], &[u32], &str); 5] = [
        (&[], &[0, 1, 0], ".abc/de//"),
        (&[], &[2, 4294967295, 1], ".!!de/"),
        (&[1], &[0], "!abc/"),
        (&[2, 4], &[0, 0, 1, 1], ".!abc/!de/"),
        (&[3, 3, 0], &[1, 0], ".de/!"),
    ];
    for (failing, stations, log) in cases {
        let mut failing_calls = Vec::new(alloc);
        failing_calls.extend_from_slice(failing)?;
        let mut hall = MemHall::new(alloc, two_lines(alloc)?, failing_calls);
        let answers = hall_log(alloc, &mut hall, "a", stations)?;
        assert!(rt; answers.as_slice() == log.as_bytes(), "{log}");
    }
    Ok(())
}

#[test]
fn a_line_that_is_away_is_not_seated_again(rt: HostRuntime) -> Result<(), AllocError> {
    let alloc = rt.alloc();
    let mut hall = MemHall::new(alloc, two_lines(alloc)?, Vec::new(alloc));
    let Ok(line) = hall.seat_station(alloc, 1) else {
        panic!(rt; "the station was not seated");
    };
    assert!(rt; hall.seat_station(alloc, 1).is_err());
    hall.stand_up(1, line);
    assert!(rt; hall.seat_station(alloc, 1).is_ok());
    OpenGate.at_commit(1);
    Ok(())
}

#[test]
fn a_hall_that_never_fails_has_a_line_for_everybody(rt: HostRuntime) -> Result<(), Memory> {
    let alloc = rt.alloc();
    let mut lines = Vec::new(alloc);
    lines.push(SurePair {
        input: SureSource::new(piece_of(alloc, "abc")?),
        output: SureSink::new(alloc, 8)?,
    })?;
    let mut hall = SureHall::new(alloc, lines);
    let answers = hall_log(alloc, &mut hall, "a", &[3, 0, 3, 0])?;
    assert!(rt; answers.as_slice() == b"./abc///".as_slice());
    Ok(())
}

// Sends these bytes, if all are taken at once.
fn has_sent(client: &mut TcpStream, text: &str) -> bool {
    match client.write(text.as_bytes()) {
        Ok(n) => n == text.len(),
        Err(_) => false,
    }
}

// Whether a read gives these bytes, 16 at most; the end where there are none.
fn has_got(client: &mut TcpStream, text: &str) -> bool {
    let mut buffer = [0u8; 16];
    match client.read(&mut buffer) {
        Ok(n) => &buffer[..n] == text.as_bytes(),
        Err(_) => false,
    }
}

// Opens a hall where the system finds a port: its address, and a client that has connected to it.
fn opened<R: Net<Listener = TcpListener, Stream = TcpStream>, W: Write + Copy + Send>(
    net: &R,
    hall: &mut TcpHall<'_, R, W>,
) -> Option<(SocketAddr, TcpStream)> {
    if hall.open("127.0.0.1:0").is_err() {
        return None;
    }
    let address = hall.address()?;
    match TcpStream::connect(net, address) {
        Ok(client) => Some((address, client)),
        Err(_) => None,
    }
}

#[test]
fn a_connection_is_a_line(rt: HostRuntime) -> Result<(), Fail> {
    let alloc = rt.alloc();
    let mut hall = TcpHall::new(alloc, &rt, io::sink(), None);
    let answers = hall_log(alloc, &mut hall, "no address", &[0])?;
    assert!(rt; answers.as_slice() == b"!!".as_slice());
    let (address, client) = opened(&rt, &mut hall).ok_or("a client")?;
    // A client of this machine also reaches a hall that listens for every network.
    assert!(rt; address.ip().is_loopback());
    let mut client = client;
    assert!(rt; has_sent(&mut client, "abc"));
    let echoed = visit(alloc, &mut hall, 2)?;
    assert!(rt; echoed.as_slice() == b"abc/".as_slice());
    assert!(rt; has_got(&mut client, "abc") && has_got(&mut client, ""));
    Ok(())
}

// Whether a line echoes this once.
fn echoes<L: Line>(alloc: Global, line: &mut L, text: &str) -> bool {
    match echo(alloc, line) {
        Ok(echoed) => echoed.as_slice() == text.as_bytes(),
        Err(_) => false,
    }
}

// Echoes over a line what a client sends, to its end, and leaves: whether the client reads to the end of what was written
// while the line is still there.
fn lets_go<L: HallLine>(alloc: Global, line: &mut L, client: &mut TcpStream) -> bool {
    let has_echoed = has_sent(client, "abc")
        && client.shutdown(Shutdown::Write).is_ok()
        && echoes(alloc, line, "abc/")
        && echoes(alloc, line, "/");
    line.leave();
    has_echoed && has_got(client, "abc") && has_got(client, "")
}

// Seats a station, lets its session run to the end as `lets_go` does, and has it stand up: whether
// its client was let go.
fn seat_that_ends<H: Hall>(alloc: Global, hall: &mut H, client: &mut TcpStream) -> bool {
    match hall.seat_station(alloc, 3) {
        Ok(line) => {
            let mut line = line;
            let is_free = lets_go(alloc, &mut line, client);
            hall.stand_up(3, line);
            is_free
        }
        Err(_) => false,
    }
}

// What a hall tells of itself that listens there, and of a station that sat down from there.
fn report_of(
    alloc: Global,
    address: SocketAddr,
    station: u32,
    peer: SocketAddr,
) -> Result<String, AllocError> {
    format!(in alloc;
        "cutroom: listening at {address}\ncutroom: station {station} sat down, from {peer}\n"
    )
}

// The hall tells of it all.
#[test]
fn a_session_that_ends_lets_its_peer_go(rt: HostRuntime) -> Result<(), Fail> {
    let alloc = rt.alloc();
    let told = File::create(&rt, "told")?;
    let mut hall = TcpHall::new(alloc, &rt, &told, None);
    let (address, client) = opened(&rt, &mut hall).ok_or("a client")?;
    let mut client = client;
    client.set_read_timeout(Some(Duration::from_secs(10)))?;
    let mut lines = report_of(alloc, address, 3, client.local_addr()?)?;
    assert!(rt; seat_that_ends(alloc, &mut hall, &mut client));
    lines.push_str("cutroom: station 3 left, its lines are read to their end\n")?;
    assert_eq!(rt; fs::read_to_string(&rt, "told")?.as_str(), lines.as_str());
    Ok(())
}

// Whether a write to a line is taken, of which its client reads one byte.
fn has_one_byte<L: Line>(line: &mut L, client: &mut TcpStream) -> bool {
    let mut buffer = [0u8; 1];
    put(line, "abc".as_bytes()).is_ok() && matches!(client.read(&mut buffer), Ok(1))
}

// Whether a read of a line fails, and a write. The line leaves after each of the two.
fn has_failed<L: HallLine>(line: &mut L) -> bool {
    let read = line.read(&mut [0u8; 4]).is_err();
    line.leave();
    let write = line.write("d".as_bytes()).is_err();
    line.leave();
    read && write
}

// The client of a station goes away with bytes that it has not read, so that its connection is reset: whether the line's
// reads and writes fail then.
fn seat_that_breaks<H: Hall>(alloc: Global, hall: &mut H, client: TcpStream) -> bool {
    let mut client = client;
    match hall.seat_station(alloc, 0) {
        Ok(line) => {
            let mut line = line;
            let is_connected = has_one_byte(&mut line, &mut client);
            drop(client);
            let is_broken = has_failed(&mut line);
            hall.stand_up(0, line);
            is_connected && is_broken
        }
        Err(_) => false,
    }
}

#[test]
fn a_connection_that_breaks_is_a_fault(rt: HostRuntime) -> Result<(), Fail> {
    let alloc = rt.alloc();
    let told = File::create(&rt, "told")?;
    let mut hall = TcpHall::new(alloc, &rt, &told, None);
    let (address, client) = opened(&rt, &mut hall).ok_or("a client")?;
    let mut lines = report_of(alloc, address, 0, client.local_addr()?)?;
    assert!(rt; seat_that_breaks(alloc, &mut hall, client));
    lines.push_str("cutroom: station 0 left, a read of its line failed\n")?;
    lines.push_str("cutroom: station 0 left, a write to its line failed\n")?;
    assert_eq!(rt; fs::read_to_string(&rt, "told")?.as_str(), lines.as_str());
    Ok(())
}

// What a line is told to have come to of whose client nothing comes: whether its read fails, and it sends at once.
fn seat_that_waits<R: Net<Listener = TcpListener, Stream = TcpStream>, W: Write + Copy + Send>(
    alloc: Global,
    hall: &mut TcpHall<'_, R, W>,
) -> bool {
    match hall.seat_station(alloc, 1) {
        Ok(line) => {
            let mut line = line;
            let is_quick = line.sends_at_once();
            let is_late = line.read(&mut [0u8; 4]).is_err();
            line.leave();
            hall.stand_up(1, line);
            is_quick && is_late
        }
        Err(_) => false,
    }
}

#[test]
fn a_station_that_is_silent_too_long_is_cut_off(rt: HostRuntime) -> Result<(), Fail> {
    let alloc = rt.alloc();
    let told = File::create(&rt, "told")?;
    let mut hall = TcpHall::new(alloc, &rt, &told, Some(Duration::from_millis(50)));
    let (address, client) = opened(&rt, &mut hall).ok_or("a client")?;
    let mut lines = report_of(alloc, address, 1, client.local_addr()?)?;
    assert!(rt; seat_that_waits(alloc, &mut hall));
    lines.push_str("cutroom: station 1 left, nothing came over its line in time\n")?;
    assert_eq!(rt; fs::read_to_string(&rt, "told")?.as_str(), lines.as_str());
    Ok(())
}

// A writer that counts its writes.
#[derive(Drop)]
struct Counted {
    writes: AtomicU64,
}

impl Write for &Counted {
    fn write(&mut self, bytes: &[u8]) -> io::Result<usize> {
        self.writes.fetch_add(1, Ordering::SeqCst);
        Ok(bytes.len())
    }

    fn flush(&mut self) -> io::Result<()> {
        Ok(())
    }
}

#[test]
fn each_line_that_a_hall_tells_is_one_write(rt: HostRuntime) -> Result<(), Fail> {
    let alloc = rt.alloc();
    let told = Counted {
        writes: AtomicU64::new(0),
    };
    let mut hall = TcpHall::new(alloc, &rt, &told, Some(Duration::from_millis(50)));
    let (_, client) = opened(&rt, &mut hall).ok_or("a client")?;
    assert!(rt; seat_that_waits(alloc, &mut hall));
    drop(client);
    // It listens, a station sits down, and leaves.
    assert!(rt; told.writes.load(Ordering::SeqCst) == 3);
    Ok(())
}
