// What a roll and a slide leave, whatever the track.
ghost use Rattle.edit_roll.specs.Lengths.{RollsKeepTheLength, SlidesKeepTheLength};

/// A roll leaves the length of its track as it is.
pub fn a_roll_keeps_the_length()
    ensures { RollsKeepTheLength }
{}

/// A slide leaves the length of its track as it is.
pub fn a_slide_keeps_the_length()
    ensures { SlidesKeepTheLength }
{}
