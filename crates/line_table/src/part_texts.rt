// Parts of a call as text, within memory that is there.
ghost use Rattle.std.specs.Prelude.{◌≡◌, ◌+◌, ◌≤◌, ◌++◌, vec_len, vec_capacity};
ghost use Rattle.line_table.specs.CallTexts.{length_text, keep_text};
ghost use Rattle.line_table.specs.Table.{end_word};

use crate::reserved::{put, put_number};
use composables::{End, FillLength};

// Adds an end of an item.
pub(crate) fn put_end(out: &mut Vec<u8>, end: End)
    requires { vec_len out.old + 4 ≤ vec_capacity out.old }
    ensures text { out.new.items ≡ out.old.items ++ end_word end }
    ensures len { vec_len out.new ≤ vec_len out.old + 4 }
    ensures room { vec_capacity out.old ≤ vec_capacity out.new }
{
    match end {
        End::Head => put(out, b"head"),
        End::Tail => put(out, b"tail"),
    }
}

// Adds the word that keeps dissolves, or nothing where they are not kept.
pub(crate) fn put_keep(out: &mut Vec<u8>, keep: bool)
    requires { vec_len out.old + 5 ≤ vec_capacity out.old }
    ensures text { out.new.items ≡ out.old.items ++ keep_text keep }
    ensures room { vec_capacity out.old ≤ vec_capacity out.new }
{
    put(out, if keep { b" keep" } else { b"" })
}

// Adds how much is filled: a count of source frames, or the whole gap.
pub(crate) fn put_length(out: &mut Vec<u8>, length: FillLength)
    requires { vec_len out.old + 17 ≤ vec_capacity out.old }
    ensures text { out.new.items ≡ out.old.items ++ length_text length }
    ensures len { vec_len out.new ≤ vec_len out.old + 17 }
    ensures room { vec_capacity out.old ≤ vec_capacity out.new }
{
    match length {
        FillLength::Source(len) => put_number(out, b"source ", len),
        FillLength::Sequence => put(out, b"sequence"),
    }
}
