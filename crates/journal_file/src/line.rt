// The line of an append, as it is written after a gate.
ghost use Rattle.std.specs.Prelude.{◌≡◌, ◌≤◌, ◌++◌, ◌∷◌, [], length};

use std::marker::Model;

/// A line of at most 1,024 bytes, with a line feed and the next gate after it.
#[derive(Drop)]
pub struct GateLine {
    bytes: [u8; 1026],
    len: usize,
}

impl Model for GateLine {
    ghost use Rattle.std.specs.Prelude.{◌≡◌, ◌≤◌, ◌+◌, ◌++◌, ◌∷◌, [], List, ℕ, take};

    ghost Value = { List ℕ };

    ghost view = { λ l. take l.len l.bytes };

    ghost invariant = { λ l. (l.len ≤ 1024)
        × (take (l.len + 2) l.bytes ≡ take l.len l.bytes ++ 10 ∷ 45 ∷ []) };
}

impl GateLine {
    /// This line, with a closed gate after it.
    pub fn of(line: &[u8]) -> GateLine
        requires { length line.now ≤ 1024 }
        ensures { result ≡ line.now }
    {
        let mut bytes = [0; 1026];
        let len = line.len();
        bytes[..len].copy_from_slice(line);
        bytes[len] = b'\n';
        bytes[len + 1] = b'-';
        GateLine { bytes, len }
    }

    /// The line, a line feed and the next gate.
    pub fn piece(&self) -> &[u8]
        ensures piece { result.now ≡ self.now ++ 10 ∷ 45 ∷ [] }
        ensures most { length result.now ≤ 1026 }
    {
        &self.bytes[..self.len + 2]
    }
}
