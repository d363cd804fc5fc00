// What lines, words and numbers are, whoever reads them.
ghost use Rattle.std.specs.Prelude.{◌≡◌, ◌≢◌, ◌<◌, ◌^◌, ◌++◌, ◌∷◌, [], ℕ, ℤ, List, Some, Ok, true, All, FitsSigned, decimal};
ghost use Rattle.std.specs.Fmt.{signed_decimal};
ghost use Rattle.std.specs.Int.{w32};
ghost use Rattle.std.specs.List.{concat};
ghost use Rattle.line_words.specs.declared.TheConstants.{MAX_LINE};
ghost use Rattle.line_words.specs.Blanks.{is_blank, words_of, IsWord};
ghost use Rattle.line_words.specs.Digits.{number_of, signed_of};
ghost use Rattle.line_words.specs.Lines.{limited, without_cr, ended_line, last_line, lines_of};
ghost use Rattle.line_words.specs.Pieces.{lines_in_pieces};

/// However a text is cut into pieces, its lines are those of the joined pieces.
pub fn lines_are_the_same_in_any_pieces()
    ensures { (pieces : List (List ℕ))
        → lines_in_pieces (Some []) pieces ≡ lines_of (concat pieces) }
{}

/// The lines of a text are what stands between its line feeds: these two facts leave no choice.
pub fn lines_stand_between_line_feeds()
    ensures line { (front rest : List ℕ) → All (λ byte. byte ≢ 10) front
        → lines_of (front ++ 10 ∷ rest) ≡ ended_line (limited front) ∷ lines_of rest }
    ensures last { (front : List ℕ) → All (λ byte. byte ≢ 10) front
        → lines_of front ≡ last_line (limited front) }
{}

/// One carriage return is dropped at the end of a line, and no other byte.
pub fn one_carriage_return_is_dropped()
    ensures one { (bytes : List ℕ) → without_cr (bytes ++ 13 ∷ []) ≡ bytes }
    ensures other { (bytes : List ℕ) (byte : ℕ) → byte ≢ 13
        → without_cr (bytes ++ byte ∷ []) ≡ bytes ++ byte ∷ [] }
    ensures none { without_cr [] ≡ [] }
{}

/// The words of a line are what stands between its blanks: these four facts leave no choice.
pub fn words_stand_between_blanks()
    ensures none { words_of [] ≡ [] }
    ensures blank { (byte : ℕ) (rest : List ℕ) → is_blank byte ≡ true
        → words_of (byte ∷ rest) ≡ words_of rest }
    ensures word { (word : List ℕ) (byte : ℕ) (rest : List ℕ) → IsWord word → is_blank byte ≡ true
        → words_of (word ++ byte ∷ rest) ≡ word ∷ words_of rest }
    ensures last { (word : List ℕ) → IsWord word → words_of word ≡ word ∷ [] }
{}

/// A line has at most 1,024 bytes before its line feed.
pub fn the_limit_is_this()
    ensures { MAX_LINE ≡ 1024 }
{}

/// Each number is read from the digits that it is written with.
pub fn written_numbers_are_read()
    ensures unsigned { (n : ℕ) → n < 2 ^ 32 → number_of (decimal n) ≡ Ok n }
    ensures signed { (z : ℤ) → FitsSigned w32 z → signed_of (signed_decimal z) ≡ Ok z }
{}
