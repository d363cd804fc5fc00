// Replies to a wish for the document of a cut.
ghost use Rattle.std.specs.Prelude.{◌≡◌, ◌≤◌, ◌++◌, codes, decimal, length};
ghost use Rattle.otio_text.specs.Documents.{timeline_text};
ghost use Rattle.station_sessions.specs.DocumentReplies.{document_reply, no_point_reply};
ghost use Rattle.station_sessions.specs.Session.{IsCutReply, IsReplyIfMemory};

use call_text::{CutObject, CutPart, Short};
use composables::{Table, Track};
use cut_room::CutFault;
use cut_steps::nows_of;
use otio_json::{WriteFault, write_timeline_after};
use reply_text::Reply;
use std::alloc::Global;
use timecode12::Counting;

/// The reply with the document of this cut, which stands after `n` entries, or why there is none; and how many entries it
/// tells of.
pub(crate) fn cut_reply(
    alloc: Global,
    n: u32,
    object: &CutObject,
    cut: Result<Vec<CutPart>, CutFault>,
    counting: &Counting,
    start: u32,
) -> (Reply, u32)
    ensures { IsCutReply (record { table = object.now.object.table; counting = counting.now; start = start })
        n cut result.0 result.1 }
{
    match cut {
        Ok(parts) => match nows_of(alloc, &object.object, &parts) {
            Ok(tracks) => {
                document_reply(alloc, n, &object.object.table, &tracks, counting, start)
            }
            Err(_) => memory_reply(),
        },
        Err(CutFault::NoPoint(length)) => (no_point_reply(length), length),
        Err(CutFault::Memory) => memory_reply(),
    }
}

/// The reply with the document of these tracks, which stand after `n` entries, or that it is too long, or that there is
/// no memory for it. The document is counted first: one that is too long takes no memory, and the reply with another takes
/// just what it needs.
fn document_reply(
    alloc: Global,
    n: u32,
    table: &Table,
    tracks: &[Track],
    counting: &Counting,
    start: u32,
) -> (Reply, u32)
    ensures { IsReplyIfMemory (document_reply n
        (timeline_text table.now tracks.now counting.now start)) n result.0 result.1 }
{
    let head = document_head(n);
    match write_timeline_after(alloc, head.as_bytes(), table, tracks, counting, start) {
        Ok(text) => match Reply::long(text) {
            Ok(reply) => (reply, n),
            Err(_) => memory_reply(),
        },
        Err(WriteFault::TooLarge) => (Reply::short(refused_at(n, b" V4")), n),
        Err(WriteFault::Memory) => memory_reply(),
    }
}

/// The reply where there are only so many entries.
pub(crate) fn no_point_reply(length: u32) -> Reply
    ensures { result ≡ no_point_reply length }
{
    Reply::short(refused_at(length, b" V3"))
}

/// The reply where there is no memory, which tells of no entry.
pub(crate) fn memory_reply() -> (Reply, u32)
    ensures reply { result.0 ≡ codes "memory" }
    ensures tells { result.1 ≡ 0 }
{
    let mut text = Short::new();
    text.push(b"memory");
    (Reply::short(text), 0)
}

// `no`, the point and a code.
fn refused_at(point: u32, code: &[u8]) -> Short
    requires { length code.now ≤ 8 }
    ensures text { result ≡ codes "no " ++ decimal point ++ code.now }
    ensures short { length result ≤ 128 }
{
    let mut text = Short::new();
    text.push(b"no ");
    text.push_number(point);
    text.push(code);
    text
}

// `otio` and the point, as they stand before the document.
fn document_head(point: u32) -> Short
    ensures { result ≡ codes "otio " ++ decimal point ++ codes " " }
{
    let mut head = Short::new();
    head.push(b"otio ");
    head.push_number(point);
    head.push(b" ");
    head
}
