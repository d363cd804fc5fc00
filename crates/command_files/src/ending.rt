// The text that a command ends with.
ghost use Rattle.std.specs.Prelude.{◌≡◌, ◌≤◌, length};
ghost use Rattle.command_files.specs.Texts.{PutsWith, refusal_text};
ghost use Rattle.command_files.specs.Ports.{output_told};

use crate::Status;
use protocol_parts::Short;
use room_ports::{Sink, put};

/// `refused`, a code of at most three letters and a number, with a line feed.
pub fn refusal_line(code: &str, number: u32) -> Short
    requires { length code.now ≤ 3 }
    ensures { result ≡ refusal_text code.now number }
{
    let mut line = Short::new();
    line.push(b"refused ");
    line.push(code.as_bytes());
    line.push(b" ");
    line.push_number(number);
    line.push(b"\n");
    line
}

/// Ends with this status once a text is put on the output: the line of a refusal, or what a command writes.
pub fn end_with<K: Sink>(status: Status, text: &[u8], output: &mut K) -> Status
    ensures { PutsWith status text.now (output_told K.taken K.write_faults output.old)
        (output_told K.taken K.write_faults output.new) result }
{
    match put(output, text) {
        Ok(()) => status,
        Err(_) => Status::WriteFault,
    }
}
