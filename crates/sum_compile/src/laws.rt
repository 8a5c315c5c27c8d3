// One function and its listing, written out: what they show, and that the line that stores the sum is needed.

ghost use Rattle.std.specs.Prelude.{◌≡◌};
ghost use Rattle.sum_compile.specs.Plain.{plain_listing};
ghost use Rattle.sum_compile.specs.Row.{row, row_listing, RowRuns, SpillIsNeeded};

/// The sum of two parameters and its listing return the sum modulo 2 to the 64 in one turn.
pub fn row_runs()
    ensures { RowRuns }
{}

/// The listing is exactly what the plain allocation makes of the function.
pub fn row_is_its_plain_allocation()
    ensures { plain_listing 24 row ≡ row_listing }
{}

/// Without the line that stores the sum in the frame, the listing shows something else.
pub fn spill_is_needed()
    ensures { SpillIsNeeded }
{}
