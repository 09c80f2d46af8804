// General facts about names, each the contract of a function that is named for it.
ghost use Rattle.names.specs.Facts.{TakingBackUndoesEntering, NumbersAreOfNames, EnteringKeepsNumbers, TablesTellNames};
ghost use Rattle.names.specs.Worked.{Worked};

/// Entering names one after another and then taking back to the old number of types gives back the old names and tables.
pub fn taking_back_undoes_entering()
    ensures { TakingBackUndoesEntering }
{}

/// A number is found for a name exactly when it is the number of that name.
pub fn numbers_are_found_exactly_for_their_names()
    ensures { NumbersAreOfNames }
{}

/// A type keeps its number while other names are entered.
pub fn entering_keeps_the_numbers()
    ensures { EnteringKeepsNumbers }
{}

/// The two tables of a list of names tell these names.
pub fn the_tables_tell_the_names()
    ensures { TablesTellNames }
{}

/// The worked example and the limits.
pub fn the_animals_are_as_worked()
    ensures { Worked }
{}
