// What is true of bytes and of what the grammar of JSON (RFC 8259) spells by them.
ghost use Rattle.json_laws.specs.Meanings.{IsOneTree, HasMeaning};
ghost use Rattle.json_laws.specs.Documents.{DocumentsAreRead, DocumentsAreRefused};
ghost use Rattle.json_laws.specs.Tokens.{NumbersAreSpelled, NumbersAreRead};
ghost use Rattle.json_laws.specs.Tokens.{TextsAreSpelled, TextsAreRead};

/// Bytes spell at most one tree, its places included. Bytes of at most 32 MiB spell a tree, or have a fault, and never
/// both: `json_tree::bytes_have_one_fault`.
pub fn bytes_have_one_meaning()
    ensures one_tree { IsOneTree }
    ensures some { HasMeaning }
{}

/// What is read after a quote is spelled by the bytes up to the next quote that closes it, and what is spelled so is
/// read, whatever stands after it.
pub fn texts_are_those_of_the_grammar()
    ensures spelled { TextsAreSpelled }
    ensures read { TextsAreRead }
{}

/// What is read as a number is spelled by the bytes in front, and kept where it is one that is kept; what is spelled so
/// is read, where nothing after it goes on with the number.
pub fn numbers_are_those_of_the_grammar()
    ensures spelled { NumbersAreSpelled }
    ensures read { NumbersAreRead }
{}

/// What a reading of all bytes from left to right answers is what the grammar says of them: a tree exactly where at most
/// 32 MiB spell it, and else the fault, exactly where it stands.
pub fn documents_are_those_of_the_grammar()
    ensures read { DocumentsAreRead }
    ensures refused { DocumentsAreRefused }
{}
