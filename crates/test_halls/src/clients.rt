// A client, and what it says and hears.
use std::io::{Read, Write};
use std::net::{SocketAddr, TcpStream};
use std::time::Duration;

// How long a client waits for what it is to hear, in seconds.
const PATIENCE: u64 = 10;

/// A client that has connected there and said this.
pub(crate) fn said(rt: &HostRuntime, at: SocketAddr, text: &str) -> Option<TcpStream> {
    let client = TcpStream::connect(rt, at).ok()?;
    let patience = Duration::from_secs(PATIENCE);
    client.set_read_timeout(Some(patience)).ok()?;
    if says(&client, text) {
        Some(client)
    } else {
        None
    }
}

/// Says this, and tells whether all of it was taken at once.
pub(crate) fn says(client: &TcpStream, text: &str) -> bool {
    let mut to = client;
    matches!(to.write(text.as_bytes()), Ok(n) if n == text.len())
}

/// Whether these bytes come next, 64 at most.
pub(crate) fn hears(client: &TcpStream, text: &str) -> bool {
    let mut buffer = [0u8; 64];
    let n = text.len().min(64);
    let mut from = client;
    from.read_exact(&mut buffer[..n]).is_ok() && &buffer[..n] == text.as_bytes()
}

/// Whether nothing comes any more: the connection has ended.
pub(crate) fn is_over(client: &TcpStream) -> bool {
    let mut from = client;
    matches!(from.read(&mut [0u8; 1]), Ok(0))
}
