// Where a crew's file and an address stand in one word.
ghost use Rattle.std.specs.Prelude.{◌≡◌, Some, None};
ghost use Rattle.crew_words.specs.Addresses.{PartsAt};

/// The name of the crew's file and the address in a word `FILE@HOST:PORT`, parted at its last `@`; no file where there is
/// none.
pub fn address_in(word: &str) -> (Option<&str>, &str)
    ensures { PartsAt word.now result.0 result.1.now }
{
    match word.rsplit_once('@') {
        Some((file, address)) => (Some(file), address),
        None => (None, word),
    }
}
