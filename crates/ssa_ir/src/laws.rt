// What holds of all ops, of one unit, and of the runs of all functions.

ghost use Rattle.ssa_ir.specs.BoundsChecked.{bounds_checked};
ghost use Rattle.ssa_ir.specs.BoundsCheckedRuns.{BoundsCheckedRuns};
ghost use Rattle.ssa_ir.specs.OpNames.{NamesDiffer};
ghost use Rattle.ssa_ir.specs.RunLaws.{EndedRunStays, BoundZeroGoesOn};
ghost use Rattle.ssa_ir.specs.WellFormed.{WellFormed};

/// No two ops have one name.
pub fn names_differ()
    ensures { NamesDiffer }
{}

/// A run that ended within its bound is the same with every larger bound.
pub fn ended_run_stays()
    ensures { EndedRunStays }
{}

/// The run of a function that has a block takes no turn with the bound 0.
pub fn bound_zero_goes_on()
    ensures { BoundZeroGoesOn }
{}

/// The unit that sums the words of a slice, each index checked, is well formed.
pub fn bounds_checked_sum_is_well_formed()
    ensures { WellFormed bounds_checked }
{}

/// The sum over a slice whose indexes are checked: its runs in three cases, and at its bound.
pub fn bounds_checked_sum_runs()
    ensures { BoundsCheckedRuns }
{}
