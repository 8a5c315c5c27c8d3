// What later passes may rely on in accepted units.

ghost use Rattle.accepted_laws.specs.LastDefiner.{LastDefinerIsNamed};
ghost use Rattle.accepted_laws.specs.MemoryLaws.{MemoryIsOne, OneIsPassed};
ghost use Rattle.accepted_laws.specs.PathLaws.{DefinitionsComeFirst, NothingCircles};

/// In a function of an accepted unit each use stands behind the definition, on every path; a value has one definition.
pub fn definitions_come_first()
    ensures { DefinitionsComeFirst }
{}

/// In a function of an accepted unit no values of reached blocks but phis take each other in a circle.
pub fn nothing_circles()
    ensures { NothingCircles }
{}

/// In a function of an accepted unit the memory that a value, a result or an exit names is made by a definer of its
/// block or was passed on the way to it, on every path; and definers are one chain.
pub fn memory_is_one()
    ensures { MemoryIsOne }
{}

/// On a path through a function of an accepted unit one memory is passed at the most.
pub fn one_is_passed()
    ensures { OneIsPassed }
{}

/// In a function of an accepted unit the memory that a reader, a store, a call, a result, an exit or a memory phi names
/// is the last definer passed on every path to it, where the values of a block stand in first order.
pub fn last_definer_is_named()
    ensures { LastDefinerIsNamed }
{}
