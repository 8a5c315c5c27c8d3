// What holds of the runs of all listings.

ghost use Rattle.listing.specs.RunLaws.{EndedRunStays, BoundZeroGoesOn};

/// A run that ended within its bound is the same with every larger bound.
pub fn ended_run_stays()
    ensures { EndedRunStays }
{}

/// A listing that begins with the label of a counted block takes no turn with the bound 0.
pub fn bound_zero_goes_on()
    ensures { BoundZeroGoesOn }
{}
