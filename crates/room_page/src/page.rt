// The page of a room, made by tools/page/embed of page/room.html. Change that, and make this again.
ghost use Rattle.std.specs.Prelude.{◌≡◌};
ghost use Rattle.web_lines.specs.Responses.{page_bytes};
ghost use Rattle.room_page.specs.PageText.{page_policy, page_text};

use crate::cut::{cut_1, cut_2, cut_3, cut_4};
use crate::edits::{edits_1, edits_2, edits_3, edits_4};
use crate::hands::{hands_1, hands_2, hands_3, hands_4};
use crate::markup::{markup_1, markup_2, markup_3};
use crate::past::{past_1, past_2};
use crate::picture::{picture_1, picture_2, picture_3, picture_4};
use crate::room::{room_1, room_2, room_3, room_4, room_5};
use crate::seat::{seat_1, seat_2};
use crate::style::style_1;
use web_lines::Page;

/// How many parts the text of the page has.
pub const PARTS: usize = 29;

const POLICY: &str = "default-src 'none'; \
    script-src 'sha256-lIzSPpeII8AtwCuv88eHGWFJiwIjDwMERdRTxXiiWqM='; \
    style-src 'sha256-qUHbo6+TUn78HDeJYJN6wpVVZnMtlnv1CWDBYxRZtOM='; \
    connect-src 'self'; \
    base-uri 'none'; \
    form-action 'none'; \
    require-trusted-types-for 'script'; \
    frame-ancestors 'none'";

/// The text of the page, in parts.
pub fn page_parts() -> [&'static str; PARTS]
    ensures { page_bytes result ≡ page_text }
{
    [
        markup_1(),
        style_1(),
        markup_2(),
        cut_1(),
        cut_2(),
        cut_3(),
        cut_4(),
        seat_1(),
        seat_2(),
        room_1(),
        room_2(),
        room_3(),
        room_4(),
        room_5(),
        picture_1(),
        picture_2(),
        picture_3(),
        picture_4(),
        edits_1(),
        edits_2(),
        edits_3(),
        edits_4(),
        past_1(),
        past_2(),
        hands_1(),
        hands_2(),
        hands_3(),
        hands_4(),
        markup_3(),
    ]
}

/// The page that a browser gets at `/`, of the parts of its text, with its policy.
pub fn page_of<'a>(parts: &'a [&'a str]) -> Page<'a>
    ensures pieces { result.pieces.now ≡ parts.now }
    ensures policy { result.policy.now ≡ page_policy }
{
    Page {
        pieces: parts,
        policy: POLICY,
    }
}
