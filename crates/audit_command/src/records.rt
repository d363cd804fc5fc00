// What was recorded of a station, as texts, and as lines and replies.
ghost use Rattle.std.specs.Prelude.{◌≡◌, ◌+◌, ◌≤◌, length, min};
ghost use Rattle.audit_command.specs.declared.record_names.TheConstants.{MAX_LINES, MAX_REPLIES};

/// The texts that were recorded of a station, and whether its session was cut short.
#[derive(Drop)]
pub(crate) struct RecordTexts {
    pub sent: Vec<u8>,
    pub got: Vec<u8>,
    pub is_cut: bool,
    ghost lines_within: { length sent.items ≤ MAX_LINES },
    ghost replies_within: { length got.items ≤ MAX_REPLIES },
}

/// What was recorded of a station, and of each of its lines that have a reply whether no entry of the journal bears its
/// number.
#[derive(Drop)]
pub(crate) struct Station<'a> {
    pub station: u32,
    pub lines: Vec<Option<&'a [u8]>>,
    pub replies: Vec<&'a [u8]>,
    pub is_cut: bool,
    pub has_no_entry: Vec<bool>,
    ghost lines_within: { length lines.items ≤ MAX_LINES + 1 },
    ghost replies_within: { length replies.items ≤ MAX_REPLIES },
    ghost signs: { length has_no_entry.items ≡ min (length lines.items) (length replies.items) },
}
