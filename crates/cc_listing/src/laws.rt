// What holds of listings.
ghost use Rattle.cc_listing.specs.Laws.{OneListing};

/// A module has at most one listing.
pub fn one_listing()
    ensures { OneListing }
{}
