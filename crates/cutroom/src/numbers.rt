// Which number is which reel, for standard error.
ghost use Rattle.std.specs.Prelude.{◌≡◌, [], IfSome};
ghost use Rattle.reel_names.specs.Namers.{numbered};

use reel_names::{Name, NameFault, Numbered, ReelNamer};
use std::alloc::{AllocError, AllocFailed, Global};
use std::cell::Cell;
use std::marker::Model;
use std::rc::Rc;

/// Lines that are to be told of the names that were given.
pub type Told = Rc<Cell<Vec<u8>>>;

/// Names reels by numbers, and notes a line for each: which number is which reel. Contracts see the names that it has
/// given; of the lines no clause speaks.
#[derive(Drop)]
pub struct ToldNumbers {
    alloc: Global,
    names: Numbered,
    // The last name that was told.
    last: Option<Name>,
    told: Told,
}

impl Model for ToldNumbers {
    ghost use Rattle.std.specs.Prelude.{List};
    ghost use Rattle.reel_names.specs.declared.namer.ReelName.{ReelName};

    ghost Value = { List ReelName };

    ghost view = { λ n. n.names };
}

impl ToldNumbers {
    /// A namer that has given no name, whose lines are noted here.
    pub fn new(alloc: Global, told: Told) -> ToldNumbers
        ensures { result ≡ [] }
    {
        ToldNumbers {
            alloc,
            names: Numbered::new(alloc),
            last: None,
            told,
        }
    }
}

impl ReelNamer for ToldNumbers {
    ghost given = { λ names. names };

    ghost rule = { λ _. numbered };

    // The name by number.
    fn name(&mut self, reel: u32, text: &str) -> Result<Name, NameFault> {
        let name = self.names.name(reel, text)?;
        if is_after(&name, &self.last) {
            self.last = Some(name);
            note(self.alloc, &self.told, &name, text);
        }
        Ok(name)
    }
}

/// A namer by numbers that has given no name, whose lines are noted here; none where there is no memory for it.
pub fn told_numbers(alloc: Global, told: &Told) -> Option<Box<ToldNumbers>>
    ensures { IfSome result (λ namer. namer.value ≡ []) }
{
    let told = told.clone().ok()?;
    Box::new(alloc, ToldNumbers::new(alloc, told)).ok()
}

/// No lines yet.
pub fn nothing_told(alloc: Global) -> Result<Told, AllocFailed<Cell<Vec<u8>>>> {
    Rc::new(alloc, Cell::new(Vec::new(alloc)))
}

// Whether a name comes after the last one, so that it is new.
fn is_after(name: &Name, last: &Option<Name>) -> bool {
    match last {
        Some(last) => last.as_bytes() < name.as_bytes(),
        None => true,
    }
}

// Notes a line, where there is memory for it.
fn note(alloc: Global, told: &Told, name: &Name, text: &str) {
    let mut lines = told.replace(Vec::new(alloc));
    let before = lines.len();
    if add_line(&mut lines, name, text).is_err() {
        lines.truncate(before);
    }
    told.set(lines);
}

// Adds a line that says which reel has a name. What can't be shown is a question mark.
fn add_line(lines: &mut Vec<u8>, name: &Name, text: &str) -> Result<(), AllocError> {
    lines.extend_from_slice(b"cutroom: ")?;
    lines.extend_from_slice(name.as_bytes())?;
    lines.extend_from_slice(b" is ")?;
    for byte in text.as_bytes() {
        lines.push(if byte.is_ascii_control() { b'?' } else { *byte })?;
    }
    lines.push(b'\n')?;
    Ok(())
}
