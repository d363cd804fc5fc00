// The words of the command line.
ghost use Rattle.std.specs.Prelude.{◌≡◌, [], map, drop, string_bytes, IfOk, IfErr};
ghost use Rattle.std.specs.Vec.Iter.{into_iter_items};

use line_words::{Memory, Words};
use std::alloc::Global;
use std::env::{self, Args};
use std::io;
use std::rt::Env;

/// The arguments of the program after its name.
pub fn program_arguments(rt: &(impl Env + AllocGlobal), alloc: Global) -> Result<Words, Memory> {
    words_given(alloc, env::args(rt))
}

/// The words that a command line gives. An argument that is not UTF-8 is a word of no command, so a command line that has
/// one gives no words at all, which no command has either.
pub fn words_given(alloc: Global, given: io::Result<Args>) -> Result<Words, Memory>
    ensures words { IfOk given (λ arguments. IfOk result (λ words.
        words ≡ map string_bytes (drop 1 (into_iter_items arguments)))) }
    ensures none { IfErr given (λ _. IfOk result (λ words. words ≡ [])) }
{
    match given {
        Ok(arguments) => words_after_the_name(alloc, arguments),
        Err(error) if error.kind() == io::ErrorKind::OutOfMemory => Err(Memory),
        Err(_) => Ok(Words::new(alloc)),
    }
}

/// All arguments but the first, which is the program's name, in their order. More than a list of words takes are as if
/// there were no memory for them.
pub fn words_after_the_name(alloc: Global, mut arguments: Args) -> Result<Words, Memory>
    ensures { IfOk result (λ words. words ≡ map string_bytes (drop 1 (into_iter_items arguments))) }
{
    match arguments.next() {
        Some(_) => words_of(alloc, arguments),
        None => Ok(Words::new(alloc)),
    }
}

// These texts as words.
fn words_of(alloc: Global, texts: Args) -> Result<Words, Memory>
    ensures { IfOk result (λ words. words ≡ map string_bytes (into_iter_items texts)) }
{
    let mut words = Words::new(alloc);
    for text in texts {
        if words.count() == u32::MAX {
            return Err(Memory);
        }
        words.push(text.as_str())?;
    }
    Ok(words)
}
