// The words of a line, one after another.
ghost use Rattle.std.specs.Prelude.{◌≡◌, ◌<◌, ◌≤◌, ◌+◌, ◌↔◌, ◌∷◌, [], true, false, None, length, drop, slice_index, slice_range, max, IfSome, MatchOption};
ghost use Rattle.std.specs.List.{AllWithin};
ghost use Rattle.line_words.specs.Blanks.{is_blank, past_word, words_of, words_from, IsNextWord, NoneBegins};

/// The place of the next word of a line, as the places of its first byte and of the byte after its last: of the first
/// word that begins at `from` or later. `None` exactly where no word begins there.
///
/// Words are parted by spaces and tabs. Where `from` stands inside a word, that word has begun before and is passed over.
pub fn next_word(line: &[u8], from: usize) -> Option<(usize, usize)>
    ensures word { IfSome result (λ w. IsNextWord line.now from w.0 w.1) }
    ensures none { (result ≡ None) ↔ NoneBegins line.now from (length line.now) }
    ensures words { MatchOption result (words_from line.now from ≡ [])
        (λ w. words_from line.now from
        ≡ slice_range line.now w.0 w.1 ∷ words_of (drop w.1 line.now)) }
{
    let start = blanks_end(line, begun_end(line, from));
    if start >= line.len() {
        return None;
    }
    Some((start, word_end(line, start)))
}

// The end of the word that stands before `from`, or reaches over it. Where none does, the place of the blank before
// `from`, or of the line's beginning.
fn begun_end(line: &[u8], from: usize) -> usize
    ensures first { from ≡ 0 → result ≡ 0 }
    ensures begins { from ≤ result + 1 }
    ensures none { NoneBegins line.now from result }
    ensures blank { 0 < from → result < length line.now
        → is_blank (slice_index line.now result) ≡ true }
    ensures words { words_of (drop result line.now) ≡ words_from line.now from }
{
    match from {
        0 => 0,
        _ => word_end(line, from - 1),
    }
}

// The place of the first byte at `from` or after it that is no blank, or of the line's end.
fn blanks_end(line: &[u8], from: usize) -> usize
    ensures begins { from ≤ result }
    ensures within { result ≤ max from (length line.now) }
    ensures blanks { AllWithin (λ byte. is_blank byte ≡ true) line.now from result }
    ensures ends { result < length line.now → is_blank (slice_index line.now result) ≡ false }
    ensures words { words_of (drop result line.now) ≡ words_of (drop from line.now) }
{
    let mut at = from;
    while at < line.len() && is_space_or_tab(line[at]) {
        at += 1;
    }
    at
}

// The place of the first blank at `from` or after it, or of the line's end.
fn word_end(line: &[u8], from: usize) -> usize
    ensures begins { from ≤ result }
    ensures within { result ≤ max from (length line.now) }
    ensures no_blank { AllWithin (λ byte. is_blank byte ≡ false) line.now from result }
    ensures ends { result < length line.now → is_blank (slice_index line.now result) ≡ true }
    ensures rest { drop result line.now ≡ past_word (drop from line.now) }
{
    let mut at = from;
    while at < line.len() && !is_space_or_tab(line[at]) {
        at += 1;
    }
    at
}

// Whether a byte parts words. A carriage return does not.
fn is_space_or_tab(byte: u8) -> bool
    ensures { result ≡ is_blank byte }
{
    byte == b' ' || byte == b'\t'
}
