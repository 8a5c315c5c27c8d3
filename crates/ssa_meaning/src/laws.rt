// What holds of all runs.

ghost use Rattle.ssa_meaning.specs.RunLaws.{MoreRepliesStay, EndedCaseStays, JunkIsNotShown};

/// A run that didn't ask for a reply that wasn't there shows the same with more of them.
pub fn more_replies_stay()
    ensures { MoreRepliesStay }
{}

/// A case that ended shows the same with a greater bound, and with more replies behind those that it took.
pub fn ended_case_stays()
    ensures { EndedCaseStays }
{}

/// Two cases that differ in junk alone show the same.
pub fn junk_is_not_shown()
    ensures { JunkIsNotShown }
{}
