// What holds of every text that is read.

ghost use Rattle.ssa_text.specs.ReadLaws.{ReadsBack, CasesReadBack};

/// A unit that was read reads back from its printed text as it was.
pub fn printed_units_read_back()
    ensures { ReadsBack }
{}

/// Cases that were read, among functions of some names, read back from their printed text as they were.
pub fn printed_cases_read_back()
    ensures { CasesReadBack }
{}
