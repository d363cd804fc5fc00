// Replies compared with the texts that the history gives.
ghost use Rattle.std.specs.Prelude.{◌≡◌, ◌≤◌, ◌++◌, codes, decimal, length};
ghost use Rattle.recorded_sessions.specs.Places.{Says};

use protocol_parts::Short;

/// Whether a reply is this text.
pub(crate) fn is_text(reply: &[u8], text: &[u8]) -> bool
    ensures { Says result (reply.now ≡ text.now) }
{
    reply == text
}

/// Whether a reply is these two texts, one after the other.
pub(crate) fn is_joined(reply: &[u8], head: &[u8], rest: &[u8]) -> bool
    ensures { Says result (reply.now ≡ head.now ++ rest.now) }
{
    if reply.len() < head.len() {
        return false;
    }
    let (front, back) = reply.split_at(head.len());
    is_text(front, head) && is_text(back, rest)
}

/// Whether a reply is `no`, the point and a code.
pub(crate) fn is_refusal(reply: &[u8], point: u32, code: &[u8]) -> bool
    requires { length code.now ≤ 8 }
    ensures { Says result (reply.now ≡ codes "no " ++ decimal point ++ code.now) }
{
    let mut text = Short::new();
    text.push(b"no ");
    text.push_number(point);
    text.push(code);
    is_text(reply, text.as_bytes())
}
