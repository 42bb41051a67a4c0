//! Laws of what a moderator keeps: each function's contract is one of them, and calling it gives the law.

ghost use Rattle.cds_moderator.specs.ModeratingLaws as laws;

/// States that a scan without a change leaves all as it was, and so does each command other than a scan or a tick.
pub fn other_commands_change_nothing()
    ensures { laws.other_commands_change_nothing }
{}
