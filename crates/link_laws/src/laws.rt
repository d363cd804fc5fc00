// What is true of links under the calls of a room.
ghost use Rattle.link_laws.specs.Given.{EditsKeepGiven, LinkingKeepsGiven, UnlinkingKeepsGiven};
ghost use Rattle.link_laws.specs.Histories.{HistoriesStayGiven, HistoriesStayTogether};
ghost use Rattle.link_laws.specs.Histories.{LinkNumbersLast};
ghost use Rattle.link_laws.specs.Laws.{DissolvingKeepsTogether, LinkingKeepsTogether};
ghost use Rattle.link_laws.specs.Laws.{MovingAnEndKeepsTogether, PuttingInKeepsTogether};
ghost use Rattle.link_laws.specs.Laws.{RippleKeepsTogether, ShiftingKeepsTogether};
ghost use Rattle.link_laws.specs.Laws.{UnlinkingKeepsTogether};
ghost use Rattle.link_laws.specs.SlipLaws.{SlidingKeepsGiven, SlidingKeepsTogether};
ghost use Rattle.link_laws.specs.SlipLaws.{SlippingKeepsGiven, SlippingKeepsTogether};
ghost use Rattle.link_laws.specs.Weights.{NextsAreWithinWeight};
ghost use Rattle.link_laws.specs.Wholes.{UnlinkedAreTogether, WholesKeepTogether};

/// Where all tracks of a room are together they are so after each of these calls on the tracks that it names, and a
/// refused call leaves them as they are: two frames of one link, on any tracks, have one set of tracks and one offset.
/// The weight of all links rises by little.
pub fn together_law()
    ensures putting_in { PuttingInKeepsTogether }
    ensures shifting { ShiftingKeepsTogether }
    ensures ripple { RippleKeepsTogether }
    ensures moving_an_end { MovingAnEndKeepsTogether }
    ensures slipping { SlippingKeepsTogether }
    ensures sliding { SlidingKeepsTogether }
    ensures dissolving { DissolvingKeepsTogether }
    ensures linking { LinkingKeepsTogether }
    ensures unlinking { UnlinkingKeepsTogether }
{}

/// What keeps the tracks of a room together on the tracks that a call names does so on all tracks: the named ones are
/// picked by their numbers, and what the call leaves is put back at these. Tracks without links are together. Each next
/// link number is at most the weight of all links.
pub fn wholes_law()
    ensures wholes { WholesKeepTogether }
    ensures unlinked { UnlinkedAreTogether }
    ensures nexts { NextsAreWithinWeight }
{}

/// Every edit keeps the links of a room given away, whatever else its tracks are: each link's number is below the next
/// link number of its home, which is among its tracks. The weight of all links rises by little.
pub fn given_law()
    ensures edits { EditsKeepGiven }
    ensures slipping { SlippingKeepsGiven }
    ensures sliding { SlidingKeepsGiven }
    ensures linking { LinkingKeepsGiven }
    ensures unlinking { UnlinkingKeepsGiven }
{}

/// A history of calls that keep the tracks of a room together does so, where the tracks are good before each of its
/// entries. One of calls that keep links given away does so whatever else the tracks are, and link numbers do not run
/// out: after any 100,000 entries or fewer each next link number is at most 2^31.
pub fn histories_law<C>()
    ensures together { HistoriesStayTogether C }
    ensures given { HistoriesStayGiven C }
    ensures numbers { LinkNumbersLast C }
{}
