// What is true of every import.
ghost use Rattle.list_import.specs.Meanings.{ImportsAreOne, ImportsAreSound, ImportsShowTheirTape};

/// Where nothing is refused an import is sound, so that a room can be opened over it.
pub fn an_import_is_sound()
    ensures { ImportsAreSound }
{}

/// What an import shows is what its list's tape shows, by the names of the reels: on each channel every frame and each mix
/// with its weight, from the start on, and dark where no event is.
pub fn an_import_shows_its_tape()
    ensures { ImportsShowTheirTape }
{}

/// A list whose events all have a place has no more than one opening, so whether one of its tracks is too full is said of
/// the list alone.
pub fn a_list_has_one_opening()
    ensures { ImportsAreOne }
{}
