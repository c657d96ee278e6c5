// What is proved of picks beside the calls.
ghost use Rattle.shelf.specs.Picks.{HavePicks};

/// A law: each choice of one image for every name has its picks, so `MemShelf::crash` can leave all
/// that a crash may leave.
pub fn every_image_has_picks()
    ensures { HavePicks }
{}
