// What a reader of lines tells.

/// How a line ended.
#[derive(Clone, Copy, Debug, PartialEq, Eq)]
pub enum LineEnd {
    /// All of it was kept.
    Whole,
    /// More than `MAX_LINE` bytes stood before its line feed, or before the end of the text.
    TooLong,
}

/// What a piece gave: how many of its bytes were taken, and how the line ended that they end, if they end one.
#[derive(Clone, Copy, Debug, PartialEq, Eq)]
pub struct Fed {
    /// How many bytes of the piece were taken.
    pub taken: usize,
    /// How the line ended that they end; `None` where they end none.
    pub line: Option<LineEnd>,
}
