//! Summaries that are evaluated from the definition: each clause is one of them.

ghost use Rattle.cds_summary.specs.Examples as examples;

/// States the summary of an empty report.
pub fn no_lines()
    ensures { examples.no_lines }
{}

/// States the summary of a report with each word that is counted.
pub fn every_word()
    ensures { examples.every_word }
{}

/// States the summary of a script whose report has rows.
pub fn rows_are_lines()
    ensures { examples.rows_are_lines }
{}

/// States what is written of a script with a line outside the grammar.
pub fn broken_script()
    ensures { examples.broken_script }
{}
