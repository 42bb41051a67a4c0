//! Laws of spans: each function's contract is one of them, and calling it gives the law.

ghost use Rattle.cds_changes.specs.ContainerLaws as containers;
ghost use Rattle.cds_changes.specs.Laws as laws;
ghost use Rattle.cds_changes.specs.MarkLaws as marks;

/// States that all events of a history tell its changes, each once and in order.
pub fn every_change_is_told()
    ensures { laws.every_change_is_told }
{}

/// States that the events of a span tell exactly the changes above its beginning, up to its end.
pub fn spans_tell_their_changes()
    ensures { laws.spans_tell_their_changes }
{}

/// States that two spans, one after the other, are one.
pub fn spans_join()
    ensures { laws.spans_join }
{}

/// States that what a server tells of a span does not depend on scans after it.
pub fn spans_stay()
    ensures { laws.spans_stay }
{}

/// States that the events of a history with their parents are its events.
pub fn with_parents_are_events()
    ensures { laws.with_parents_are_events }
{}

/// States that the events of a history with their parents tell which containers a span touched, and what it deleted.
pub fn with_parents_tell_containers()
    ensures { laws.with_parents_tell_containers }
{}

/// States that the containers of a span are those that stand at its end and whose containerUpdateID is above its beginning. Each
/// comes with that number.
pub fn containers_have_their_numbers()
    ensures { containers.containers_have_their_numbers }
{}

/// States which changes are marked. An addition is if it lies at or below a folder that the scan added with something below it. A
/// deletion is if it lies at or below one that the scan deleted with something below it. Nothing else is marked.
pub fn marks_lie_under_folders()
    ensures { marks.marks_lie_under_folders }
{}

/// States that the end of each subtree update is told once, directly after its last marked event, and that no other end is told.
pub fn ends_are_told_once()
    ensures { marks.ends_are_told_once }
{}
