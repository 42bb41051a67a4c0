//! Laws of scripts and of their lines: each function's contract is one of them.

ghost use Rattle.cds_script.specs.Complete as complete;
ghost use Rattle.cds_script.specs.LineLaws as lines;
ghost use Rattle.cds_script.specs.LoadBounds as bounds;
ghost use Rattle.cds_script.specs.Played as played;
ghost use Rattle.cds_script.specs.Script as script;
ghost use Rattle.cds_script.specs.ScriptGiven as given;
ghost use Rattle.cds_script.specs.Word as words;

/// States that the report of a script is what its turns write, one after the other, and then its last line. The last line is
/// none, or `error line` with the number of the first line that is outside the grammar, or `error limit`. The status is
/// accordingly.
pub fn reports_are_of_turns()
    ensures { played.reports_are_of_turns }
{}

/// States that each turn of a script may stand after the older ones, and that its first number is one of the server's.
pub fn script_turns_may_be()
    ensures { played.script_turns_may_be }
{}

/// States that the numbers of what a line means are within their ranges.
pub fn lines_mean_in_range()
    ensures { script.lines_mean_in_range }
{}

/// States that the replica of a script is one of an honest server, whose commands are those that the script's turns gave it.
pub fn scripts_are_given()
    ensures { given.scripts_are_given }
{}

/// States that each reply and each note of a script can be read, jumps over no change and tells only what can be. (A note may be
/// of an unknown name, or one too many.)
pub fn nothing_is_refused()
    ensures { given.nothing_is_refused }
{}

/// States that at most 64 subscriptions of a script live at the current moment.
pub fn subscriptions_are_few()
    ensures { given.subscriptions_are_few }
{}

/// States that each line `stands` in the report of a script tells a scan end of the scans that were accepted by then. The rows
/// after it are those of the catalog after the scans up to it.
pub fn all_turns_stand_at_scan_ends()
    ensures { given.all_turns_stand_at_scan_ends }
{}

/// States that the answer is complete under these conditions:
/// - a load was begun;
/// - the accepted subscription lives;
/// - each of its notes was received;
/// - every change is released;
/// - nothing is to be read.
///
/// An ask then writes the server's number and the catalog after all scans.
pub fn answers_are_complete()
    ensures { given.answers_are_complete }
{}

/// States a bound on the reads of a replica of a script that is behind its load, if one was begun. It has at most as many reads
/// as a load of the catalog takes, and one more. They count since the load began, a first note dropped the copy, or the catalog
/// last changed.
pub fn loads_are_bounded()
    ensures { bounds.loads_are_bounded }
{}

/// States that each line `behind load` in the report of a script obeys the bound on loads.
pub fn all_turns_bound_loads()
    ensures { bounds.all_turns_bound_loads }
{}

/// States that a note to the subscription that was accepted last is received if it was delivered and not answered `full`.
pub fn delivered_notes_are_received()
    ensures { complete.delivered_notes_are_received }
{}

/// States that after `read none` nothing is to be read until a load is begun, a reply is accepted or a note is delivered.
pub fn nothing_is_to_be_read()
    ensures { complete.nothing_is_to_be_read }
{}

/// States that the answer is complete under these conditions, in the words of a script:
/// - a load was begun;
/// - the accepted subscription lives;
/// - each of its notes was delivered, at least once so that the answer was not `full`;
/// - every change is released;
/// - a read wrote `read none` since.
///
/// An ask then writes the server's number and the catalog after all scans.
pub fn all_answers_are_complete()
    ensures { complete.all_answers_are_complete }
{}

/// States that a script meets the premises of the complete answer.
pub fn scripts_can_be_complete()
    ensures { complete.scripts_can_be_complete }
{}

/// States that all bytes are lines that are each followed by an LF, and a last line without one, which may be empty.
pub fn scripts_are_lines()
    ensures { lines.scripts_are_lines }
{}

/// States that lines that are each followed by an LF are the lines of their bytes, and that each was ended.
pub fn ended_lines_are_read()
    ensures { lines.ended_lines_are_read }
{}

/// States that a last line that has bytes and no LF is one more line, and the only one that was not ended.
pub fn last_lines_are_read()
    ensures { lines.last_lines_are_read }
{}

/// States that any bytes can be written as a part of a line that stands for them.
pub fn any_bytes_can_be_written()
    ensures { words.any_bytes_can_be_written }
{}

/// States that visible ASCII without `%` stands for itself.
pub fn plain_words_stand_for_themselves()
    ensures { words.plain_words_stand_for_themselves }
{}

/// States that a part of a line stands for bytes if and only if it is pieces, one after the other, that stand for these bytes. A
/// piece is a byte that stands for itself or an escape. Every other part is no word.
pub fn words_are_of_pieces()
    ensures { words.words_are_of_pieces }
{}

/// States that bytes that are written as a word have visible ASCII alone: no space, and no LF.
pub fn written_words_are_visible()
    ensures { words.written_words_are_visible }
{}

/// States that words that are written so, with one space between each two, are read back from their line.
pub fn written_lines_are_read()
    ensures { words.written_lines_are_read }
{}
