// Which answer a head gets.
ghost use Rattle.std.specs.Prelude.{◌≡◌, ◌≤◌, take, length, All};
ghost use Rattle.httparse.specs.Spans.{IsHeaderWithin, IsRequestWithin};
ghost use Rattle.http1.specs.Framing.{request_framing, method_kind};
ghost use Rattle.web_lines.specs.Requests.{Answers, at_path, by_method, has_one_host, is_bare, is_sound, method_of, path_of, plain_answer, request_in};

use crate::answer::{Answer, refused_upgrade};
use http1::fields::KnownFields;
use http1::framing::{Framing, FramingError, MethodKind, request_framing};
use httparse::spans::{HeaderSpan, RequestSpans};
use websocket::handshake::server::check_request;

/// The addresses at which there is something.
#[derive(Clone, Copy, Debug, PartialEq, Eq)]
pub enum Path {
    /// `/`: the page.
    Page,
    /// `/health`: nothing, and so a sign of life.
    Health,
    /// `/station`: a WebSocket.
    Station,
}

/// The methods that are answered. Case counts.
#[derive(Clone, Copy, Debug, PartialEq, Eq)]
pub enum Method {
    /// `GET`.
    Get,
    /// `HEAD`.
    Head,
}

/// What a head is answered that `httparse` found in these bytes.
pub fn answer_of(bytes: &[u8], head: &RequestSpans, spans: &[HeaderSpan]) -> Answer
    requires { IsRequestWithin bytes.now spans.now head.now }
    ensures { Answers (request_in bytes.now spans.now head.now) result }
{
    match told_plainly(bytes, head, spans) {
        Some(answer) => answer,
        None => match check_request(bytes, head, spans) {
            Ok(key) => Answer::Station(key),
            Err(error) => refused_upgrade(error),
        },
    }
}

// The answer, but for what a request for a WebSocket is answered.
fn told_plainly(bytes: &[u8], head: &RequestSpans, spans: &[HeaderSpan]) -> Option<Answer>
    requires { IsRequestWithin bytes.now spans.now head.now }
    ensures { result ≡ plain_answer (request_in bytes.now spans.now head.now) }
{
    let known = KnownFields::from_spans(bytes, &spans[..head.headers]);
    let method = head.method.of(bytes);
    let framing = request_framing(MethodKind::of(method), head.version, &known);
    if is_sound(head.version, &known, framing) {
        at_path(
            path_of(head.path.of(bytes)),
            method_of(method),
            is_bare(framing),
        )
    } else {
        Some(Answer::Bad)
    }
}

// The head names one host, and says in one way what body follows.
fn is_sound(minor: u8, known: &KnownFields, framing: Result<Framing, FramingError>) -> bool
    ensures { result ≡ is_sound minor known.now framing }
{
    has_one_host(minor, known.hosts) && framing.is_ok() && known.framing_fields <= 1
}

// HTTP/1.1 names one host, HTTP/1.0 one or none (RFC 9112, section 3.2).
fn has_one_host(minor: u8, hosts: u8) -> bool
    ensures { result ≡ has_one_host minor hosts }
{
    hosts == 1 || (minor == 0 && hosts == 0)
}

// No body follows.
fn is_bare(framing: Result<Framing, FramingError>) -> bool
    ensures { result ≡ is_bare framing }
{
    match framing {
        Ok(Framing::NoBody) => true,
        Ok(Framing::Length(count)) => count == 0,
        Ok(Framing::Chunked | Framing::UntilClose) | Err(_) => false,
    }
}

// The address of a target, which has to be spelled exactly.
fn path_of(target: &[u8]) -> Option<Path>
    ensures { result ≡ path_of target.now }
{
    if target == b"/".as_slice() {
        Some(Path::Page)
    } else if target == b"/health".as_slice() {
        Some(Path::Health)
    } else if target == b"/station".as_slice() {
        Some(Path::Station)
    } else {
        None
    }
}

// The method, where it is one that is answered.
fn method_of(method: &[u8]) -> Option<Method>
    ensures { result ≡ method_of method.now }
{
    if method == b"GET".as_slice() {
        Some(Method::Get)
    } else if method == b"HEAD".as_slice() {
        Some(Method::Head)
    } else {
        None
    }
}

// The answer at an address; `None` where a WebSocket may be asked for.
fn at_path(path: Option<Path>, method: Option<Method>, bare: bool) -> Option<Answer>
    ensures { result ≡ at_path path method bare }
{
    match (path, method) {
        (None, _) => Some(Answer::Missing),
        (Some(_), None) => Some(Answer::WrongMethod),
        (Some(path), Some(method)) => by_method(path, method, bare),
    }
}

// The same, of an address and a method that are answered.
fn by_method(path: Path, method: Method, bare: bool) -> Option<Answer>
    ensures { result ≡ by_method path method bare }
{
    if !bare {
        return Some(Answer::Bad);
    }
    match (path, method) {
        (Path::Page, Method::Get) => Some(Answer::Page),
        (Path::Page, Method::Head) => Some(Answer::PageHead),
        (Path::Health, _) => Some(Answer::Health),
        (Path::Station, Method::Get) => None,
        (Path::Station, Method::Head) => Some(Answer::NeedsUpgrade),
    }
}
