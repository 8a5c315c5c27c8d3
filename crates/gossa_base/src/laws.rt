// What holds of the definitions.

ghost use Rattle.gossa_base.specs.MemoryLaws.{UnchangedShowsNothing};

/// Memory that stayed as it was shows no changed bytes.
pub fn unchanged_memory_shows_nothing()
    ensures { UnchangedShowsNothing }
{}
