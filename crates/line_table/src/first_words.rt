// The first words of lines.
ghost use Rattle.std.specs.Prelude.{◌≡◌};
ghost use Rattle.line_table.specs.LikelyWords.{likely, of_five, of_four, of_six};
ghost use Rattle.line_table.specs.Reading.{first_word_of};
ghost use Rattle.line_table.specs.Table.{word_of};

/// The first word of a line, which says what the line asks for.
#[derive(Clone, Copy, Debug, PartialEq, Eq)]
pub enum FirstWord {
    Overwrite,
    Insert,
    Remove,
    Extract,
    Slice,
    Dissolve,
    Undissolve,
    Trim,
    Slip,
    Roll,
    Slide,
    Fill,
    Ripple,
    Link,
    Unlink,
    Back,
    View,
    Items,
    Point,
    Otio,
    News,
}

// The bytes of the shortest first word.
const SHORTEST: usize = 4;

impl FirstWord {
    /// The first word that these bytes are, if they are one. Their number and some of them leave one that they can be.
    pub fn of_word(word: &[u8]) -> Option<FirstWord>
        ensures { result ≡ first_word_of word.now }
    {
        if word.len() < SHORTEST {
            return None;
        }
        match likely(word.len(), word[0], word[1], word[3]) {
            Some(first) => {
                if word == first.text() {
                    return Some(first);
                }
                None
            }
            None => None,
        }
    }

    // Its bytes.
    fn text(self) -> &'static [u8]
        ensures { result.now ≡ word_of self }
    {
        match self {
            FirstWord::Overwrite => b"overwrite",
            FirstWord::Insert => b"insert",
            FirstWord::Remove => b"remove",
            FirstWord::Extract => b"extract",
            FirstWord::Slice => b"slice",
            FirstWord::Dissolve => b"dissolve",
            FirstWord::Undissolve => b"undissolve",
            FirstWord::Trim => b"trim",
            FirstWord::Slip => b"slip",
            FirstWord::Roll => b"roll",
            FirstWord::Slide => b"slide",
            FirstWord::Fill => b"fill",
            FirstWord::Ripple => b"ripple",
            FirstWord::Link => b"link",
            FirstWord::Unlink => b"unlink",
            FirstWord::Back => b"back",
            FirstWord::View => b"view",
            FirstWord::Items => b"items",
            FirstWord::Point => b"point",
            FirstWord::Otio => b"otio",
            FirstWord::News => b"news",
        }
    }
}

// The one first word that a word of so many bytes can be, by its first, its second and its fourth byte.
fn likely(length: usize, first: u8, second: u8, fourth: u8) -> Option<FirstWord>
    ensures { result ≡ likely length first second fourth }
{
    match length {
        4 => of_four(first),
        5 => of_five(first, fourth),
        6 => of_six(first, second),
        7 => Some(FirstWord::Extract),
        8 => Some(FirstWord::Dissolve),
        9 => Some(FirstWord::Overwrite),
        10 => Some(FirstWord::Undissolve),
        _ => None,
    }
}

// The one of four bytes.
fn of_four(first: u8) -> Option<FirstWord>
    ensures { result ≡ of_four first }
{
    match first {
        b't' => Some(FirstWord::Trim),
        b's' => Some(FirstWord::Slip),
        b'r' => Some(FirstWord::Roll),
        b'f' => Some(FirstWord::Fill),
        b'l' => Some(FirstWord::Link),
        b'v' => Some(FirstWord::View),
        b'o' => Some(FirstWord::Otio),
        b'b' => Some(FirstWord::Back),
        b'n' => Some(FirstWord::News),
        _ => None,
    }
}

// The one of five bytes.
fn of_five(first: u8, fourth: u8) -> Option<FirstWord>
    ensures { result ≡ of_five first fourth }
{
    match (first, fourth) {
        (b'i', _) => Some(FirstWord::Items),
        (b'p', _) => Some(FirstWord::Point),
        (b's', b'c') => Some(FirstWord::Slice),
        (b's', _) => Some(FirstWord::Slide),
        _ => None,
    }
}

// The one of six bytes.
fn of_six(first: u8, second: u8) -> Option<FirstWord>
    ensures { result ≡ of_six first second }
{
    match (first, second) {
        (b'i', _) => Some(FirstWord::Insert),
        (b'u', _) => Some(FirstWord::Unlink),
        (b'r', b'e') => Some(FirstWord::Remove),
        (b'r', _) => Some(FirstWord::Ripple),
        _ => None,
    }
}
