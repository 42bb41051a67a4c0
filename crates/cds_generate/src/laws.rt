//! Laws of generated scripts: each function's contract is one of them.

ghost use Rattle.cds_generate.specs.Language as language;

/// States that each line of a generated script is a line of the language of scripts, and that an LF ends each.
pub fn lines_are_turns()
    ensures { language.lines_are_turns }
{}

/// States that a generated script is within the limit of scripts.
pub fn scripts_are_short()
    ensures { language.scripts_are_short }
{}

/// States that a generated script is played to its end: each note was sent when it is delivered. At most 64 subscriptions live.
pub fn scripts_are_played()
    ensures { language.scripts_are_played }
{}
