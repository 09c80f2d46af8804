// What is proved of the reading of lines, beyond the contracts of the calls.
ghost use Rattle.grammar.specs.Worked.{WorkedLines};

/// Each worked line has the outcome that stands beside it.
pub fn worked_lines_come_out_as_told()
    ensures { WorkedLines }
{}
