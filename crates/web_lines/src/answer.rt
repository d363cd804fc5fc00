// What a request is answered.
ghost use Rattle.std.specs.Prelude.{◌≡◌};
ghost use Rattle.web_lines.specs.Requests.{refused_upgrade};

use websocket::handshake::HandshakeError;

/// What a request is answered. After each answer but `Station` the connection is to be closed.
#[derive(Clone, Copy, Debug, PartialEq, Eq)]
pub enum Answer {
    /// 200 with the page.
    Page,
    /// 200 with the fields of the page alone, which is what `HEAD` asks for.
    PageHead,
    /// 200 with nothing: there is a hall.
    Health,
    /// 101, with the key that accepts the WebSocket. From here on the connection is a station's.
    Station([u8; 28]),
    /// 400: this is no head of HTTP, it names no host or two, it says in two ways or in none what body follows, a body
    /// follows, or its key is none of a WebSocket.
    Bad,
    /// 404: there is nothing at this address. An address with a question mark is one of these, so no key stands in one.
    Missing,
    /// 405: the method is neither `GET` nor `HEAD`.
    WrongMethod,
    /// 426: the address is a station's, and no WebSocket of version 13 is asked for.
    NeedsUpgrade,
    /// 431: the head is longer than `MOST_HEAD`, or has more than `MOST_FIELDS` fields.
    TooLong,
}

/// What a request at a station's address is answered that asks for no WebSocket, or not rightly.
pub fn refused_upgrade(error: HandshakeError) -> Answer
    ensures { result ≡ refused_upgrade error }
{
    match error {
        HandshakeError::WrongHttpMethod
        | HandshakeError::WrongHttpVersion
        | HandshakeError::MissingConnectionUpgradeHeader
        | HandshakeError::MissingUpgradeWebSocketHeader
        | HandshakeError::MissingSecWebSocketVersionHeader => Answer::NeedsUpgrade,
        _ => Answer::Bad,
    }
}
