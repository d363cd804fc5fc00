// A connection whose station is known.
use crate::shared::Shared;
use std::io::Write;
use std::net::TcpStream;
use std::sync::Arc;
use web_lines::WebStream;

/// A connection, what came over it with its first line, and the WebSocket that it is where it is one. The session of its
/// station takes the latter two.
#[derive(Drop)]
pub struct Link {
    pub stream: Arc<TcpStream>,
    pub ahead: Option<Vec<u8>>,
    pub web: Option<WebStream<Shared>>,
}

impl Link {
    /// Writes a line to a connection that does not block, and says whether all of it was taken.
    pub fn tells(&mut self, line: &[u8]) -> bool {
        match &mut self.web {
            Some(web) => web.write_all(line).is_ok(),
            None => tells(&self.stream, line),
        }
    }

    /// Somebody sits over it: from now on it may block.
    pub fn is_seated(&self) {
        match &self.web {
            Some(web) => web.get_ref().seat(),
            None => {}
        }
        let _ = self.stream.set_nonblocking(false);
    }
}

/// Writes this to a connection that does not block, and says whether all of it was taken.
pub fn tells(stream: &TcpStream, text: &[u8]) -> bool {
    let mut to = stream;
    matches!(to.write(text), Ok(n) if n == text.len())
}
