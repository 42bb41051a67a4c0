//! Laws of replies to control requests. Calling a function gives its law.

ghost use Rattle.cds_control.specs.Laws as laws;

/// States that a control request has one reply over what is published.
pub fn one_reply()
    ensures { laws.one_reply }
{}

/// States that a control request that asks for an action gets the answer to it, in the version that was asked, and nothing else.
pub fn what_is_asked_is_answered()
    ensures { laws.what_is_asked_is_answered }
{}

/// States that a control request whose checks all pass is answered with status 200.
pub fn passed_checks_get_200()
    ensures { laws.passed_checks_get_200 }
{}

/// States that each reply has its status for its cause, and that no control request is answered otherwise.
pub fn replies_have_causes()
    ensures { laws.replies_have_causes }
{}

/// States that the rows written for the ids of a page are the slice of those that match, in the order that was asked for.
pub fn pages_have_their_rows()
    ensures { laws.pages_have_their_rows }
{}

/// States that the capabilities list every property that criteria may name, and every property that rows can be sorted by.
pub fn capabilities_are_whole()
    ensures { laws.capabilities_are_whole }
{}
