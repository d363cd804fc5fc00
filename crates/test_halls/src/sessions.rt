// The session of a station, at the other end of its line.
use crate::clients::{hears, says};
use room_ports::{Line, put};
use std::net::TcpStream;

/// Whether a read of the line gives this, 64 bytes at most; the end where it is empty.
pub(crate) fn gets<L: Line>(line: &mut L, text: &str) -> bool {
    let mut buffer = [0u8; 64];
    match line.read(&mut buffer) {
        Ok(n) => &buffer[..n] == text.as_bytes(),
        Err(_) => false,
    }
}

/// Whether a read of the line gives this, and a reply to it is taken.
pub(crate) fn answers<L: Line>(line: &mut L, text: &str, reply: &str) -> bool {
    gets(line, text) && put(line, reply.as_bytes()).is_ok()
}

/// Whether what a station says comes to its session, and the reply comes back.
pub(crate) fn talks<L: Line>(client: &TcpStream, line: &mut L) -> bool {
    says(client, "point\n") && answers(line, "point\n", "point 0\n") && hears(client, "point 0\n")
}
