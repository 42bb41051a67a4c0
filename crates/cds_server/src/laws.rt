//! Laws of replies. Each function's contract is one law, and calling the function gives the law.

ghost use Rattle.cds_server.specs.Laws as laws;

/// States that each reply has its status for its cause, and that no message is answered otherwise.
pub fn replies_have_causes()
    ensures { laws.replies_have_causes }
{}

/// States that a control request whose checks all pass is answered with status 200.
pub fn passed_checks_get_200()
    ensures { laws.passed_checks_get_200 }
{}

/// States that a message has one reply, at each moment and after each list of commands.
pub fn one_reply()
    ensures { laws.one_reply }
{}

/// States that a control request that asks for an action gets the answer to it, in the version that was asked, and nothing else.
pub fn what_is_asked_is_answered()
    ensures { laws.what_is_asked_is_answered }
{}

/// States that each note that a tick sends has the number and the changes that the one body of its notes tells.
pub fn notes_are_sent()
    ensures { laws.notes_are_sent }
{}

/// States that the body of the notes of a release has fewer than 66,000,000 bytes.
pub fn bodies_are_short()
    ensures { laws.bodies_are_short }
{}

/// States a law for moments that never fall. A subscription is granted if there is room, and renewed if it lives: so at most 64
/// live.
pub fn accepted_are_served()
    ensures { laws.accepted_are_served }
{}
