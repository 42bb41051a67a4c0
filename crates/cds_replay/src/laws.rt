//! What holds of wires as definitions say them: each function's contract is one law, and calling it gives the law.

ghost use Rattle.cds_replay.specs.Replied as replied;
ghost use Rattle.cds_replay.specs.Reported as reported;
ghost use Rattle.cds_replay.specs.Wire as wire;

/// States that a script ends over a wire in one way.
pub fn wires_end_once()
    ensures { wire.wires_end_once }
{}

/// States that the steps of a script are the turns of its first lines, each read as the wire left its reply. Each is taken,
/// except the newest if that one was refused. The script writes what each of the others writes, one after the other, and then a
/// last line.
pub fn wires_report_steps()
    ensures { reported.wires_report_steps }
{}

/// States that after `stands` an ask writes rows that replies showed, as the wire left them. One reply showed each of these rows
/// with its content and its objectUpdateID.
pub fn asks_write_what_was_left()
    ensures { wire.asks_write_what_was_left }
{}

/// States that nothing is refused over a wire that leaves each reply as it is.
pub fn straight_wires_are_taken()
    ensures { wire.straight_wires_are_taken }
{}

/// States that a script ends over such a wire as scripts do.
pub fn straight_reports_are_the_scripts()
    ensures { wire.straight_reports_are_the_scripts }
{}

/// States that the reply to an ask is that of a server of the same scans to the message of the ask's control request.
pub fn asks_are_replied()
    ensures { replied.asks_are_replied }
{}

/// States that a script's subscribe request gets the status 200 if there is room, and otherwise 503.
pub fn subscriptions_are_replied()
    ensures { replied.subscriptions_are_replied }
{}

/// States that a renewal gets the status 200 if the subscription lives, and otherwise 412.
pub fn renewals_are_replied()
    ensures { replied.renewals_are_replied }
{}

/// States that a request to end a subscription gets the same statuses.
pub fn ends_are_replied()
    ensures { replied.ends_are_replied }
{}
