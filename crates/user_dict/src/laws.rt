ghost use Rattle.user_dict.specs.Laws.{AllowedIsRead, OutcomesGoByLines, ReadIsAllowed, TakenIsOfOutcomes};

/// The rows of a file that reads, and its skipped lines, are two filters of what its lines come to.
pub fn rows_and_skips_are_filters()
    ensures { TakenIsOfOutcomes }
{}

/// What a line comes to hangs on the line, its number and the rows before it alone.
pub fn outcomes_go_by_lines()
    ensures { OutcomesGoByLines }
{}

/// A file reads exactly where each line is text, and its lines keep no more rows than may be.
pub fn texts_of_few_rows_are_read()
    ensures read { ReadIsAllowed }
    ensures allowed { AllowedIsRead }
{}
