// The reply to a line.
use crate::{MAX_SHORT, Memory, Short};
use room_ports::{Failed, Sink, put};
use std::marker::Model;

// A short text, which took no memory, or a longer one, with memory for its line feed.
#[derive(Drop)]
enum Text {
    Short(Short),
    Long(Vec<u8>),
}

/// The reply to a line. Contracts see its text, which has no line feed.
#[derive(Drop)]
pub struct Reply {
    text: Text,
}

impl Model for Reply {
    ghost use Rattle.std.specs.Prelude.{List, ℕ};

    ghost Value = { List ℕ };

    ghost use Rattle.reply_text.specs.KeptTexts.{HasRoom, text_of};

    ghost view = { λ r. text_of r.text };

    ghost invariant = { λ r. HasRoom r.text };
}

impl Reply {
    ghost use Rattle.std.specs.Prelude.{◌≡◌, ◌≤◌, ◌++◌, codes, length, IfOk, OnOk, OnErr};
    ghost use Rattle.room_ports.specs.Bytes.{Takes, TakesFront};
    ghost use Rattle.room_ports.specs.Counts.{HasRisen};

    /// A reply that takes no memory.
    pub fn short(text: Short) -> Reply
        requires { length text ≤ MAX_SHORT }
        ensures { result ≡ text }
    {
        Reply {
            text: Text::Short(text),
        }
    }

    /// A longer reply. It takes memory for the line feed that ends it.
    pub fn long(text: Vec<u8>) -> Result<Reply, Memory>
        ensures { IfOk result (λ reply. reply ≡ text.items) }
    {
        let mut text = text;
        text.reserve(1)?;
        Ok(Reply {
            text: Text::Long(text),
        })
    }

    /// Sends the reply in one piece, with the line feed that ends it.
    pub fn send<K: Sink>(self, output: &mut K) -> Result<(), Failed>
        ensures ok { OnOk result (Takes (K.taken output.old) (K.taken output.new)
            (self ++ codes "\n")) }
        ensures err { OnErr result (TakesFront (K.taken output.old) (K.taken output.new)
            (self ++ codes "\n")) }
        ensures cause { OnErr result (HasRisen (K.write_faults output.old)
            (K.write_faults output.new)) }
        ensures quiet { OnOk result (K.write_faults output.new ≡ K.write_faults output.old) }
        ensures apart { K.as_source output.new ≡ K.as_source output.old }
    {
        let Reply { text } = self;
        match text {
            Text::Short(mut text) => {
                text.push(b"\n");
                put(output, text.as_bytes())
            }
            Text::Long(mut text) => {
                text.push_reserved(b'\n');
                put(output, &text)
            }
        }
    }
}
