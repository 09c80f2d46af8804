// What the reading of a line means, in the words of its grammar, its limits and its bad places.
#![tactic(auto)]

ghost use Rattle.grammar_meaning.specs.Claims.{AcceptsLawfulLines, RefusesAtBadPlaces};

/// A line is accepted, with its names, exactly when the grammar has it so and the names keep both limits.
pub fn lines_are_accepted_exactly_as_grammar_and_limits_say()
    ensures { AcceptsLawfulLines }
{}

/// A line is refused with a fault exactly where its bad place is, by the rule that it breaks there.
pub fn lines_are_refused_exactly_at_their_bad_place()
    ensures { RefusesAtBadPlaces }
{}
