//! Laws of notes: each function's contract is one of them, and calling it gives the law.

ghost use Rattle.cds_follow.specs.CourseLaws as course;
ghost use Rattle.cds_follow.specs.HonestLaws as honest;
ghost use Rattle.cds_follow.specs.InboxLaws as inbox;
ghost use Rattle.cds_follow.specs.KnownLaws as known;
ghost use Rattle.cds_follow.specs.LoadTurns as loads;
ghost use Rattle.cds_follow.specs.Named as named;
ghost use Rattle.cds_follow.specs.OrderLaws as order;
ghost use Rattle.cds_follow.specs.Seen as seen;
ghost use Rattle.cds_follow.specs.ServerLaws as server;
ghost use Rattle.cds_follow.specs.StepLaws as steps;
ghost use Rattle.cds_follow.specs.TrackerLaws as trackers;
ghost use Rattle.cds_follow.specs.Wire as wire;

/// States that the notes that were taken are the longest run of places from 0 on that were received.
pub fn the_longest_run_is_taken()
    ensures { inbox.the_longest_run_is_taken }
{}

/// States that a place is missing if and only if it is the least that was not received, and a greater one was.
pub fn the_least_is_missing()
    ensures { inbox.the_least_is_missing }
{}

/// States that the events of a span can all be, one by one, and lead from rows like those at its beginning to rows like those at
/// its end. So what a copy counts from notes is what the server's catalog has.
pub fn spans_lead_to_the_rows()
    ensures { steps.spans_lead_to_the_rows }
{}

/// States that commands whose scans have folder maps make an honest server: its rows are trees, its numbers never fall, and equal
/// numbers have equal rows.
pub fn commands_are_servers()
    ensures { server.commands_are_servers }
{}

/// States that an id and an objectUpdateID determine what the object says, and an id alone its parent and its kind.
pub fn versions_have_one_content()
    ensures { server.versions_have_one_content }
{}

/// States that an objectUpdateID that is not above an earlier number is that of the object's row then, which said the same.
pub fn versions_are_settled()
    ensures { server.versions_are_settled }
{}

/// States what the changes since an earlier number tell of what stands now. If its objectUpdateID is above this number, it was
/// added or modified at its objectUpdateID, and not deleted since. Otherwise nothing deleted it.
pub fn versions_are_told()
    ensures { server.versions_are_told }
{}

/// States that of an honest server no reply is unreadable or torn, and no note jumps or is torn. They may come in any order, with
/// losses and repeats. A note of an unknown name, or one that there is no room to hold, is refused.
pub fn honest_calls_are_taken()
    ensures { honest.honest_calls_are_taken }
{}

/// States at which numbers a replica of an honest server stands. Each is a scan end of the server, and the copy is the catalog
/// that stood there.
pub fn honest_copies_stood()
    ensures { honest.honest_copies_stood }
{}

/// States that a note that was delivered is received, if its name is the accepted one and there was room to hold it.
pub fn delivered_notes_are_received()
    ensures { honest.delivered_notes_are_received }
{}

/// States that the position is the greatest of the number that the last ended load read and the numbers of all notes that were
/// taken.
pub fn position_is_the_greatest()
    ensures { known.position_is_the_greatest }
{}

/// States that the new changes above the number that a load read were counted on its copy, each once and in order, and no others,
/// if a copy stands.
pub fn counted_changes_are_fresh()
    ensures { known.counted_changes_are_fresh }
{}

/// States that notes that are taken leave a running load, and the rows that a copy's load read, as they are, except a first note
/// that drops them.
pub fn notes_leave_the_load()
    ensures { known.notes_leave_the_load }
{}

/// States that the number that the last load read is the one that was shown when it ended.
pub fn base_is_the_last_end()
    ensures { known.base_is_the_last_end }
{}

/// States that the answer is complete under these conditions:
/// - a load was begun;
/// - the accepted subscription lives;
/// - each of its notes was received;
/// - every change is released;
/// - nothing is to be read.
///
/// The replica then stands at the server's number.
pub fn honest_answers_are_complete()
    ensures { honest.honest_answers_are_complete }
{}

/// States that what a replica holds of its load is what the turns of its loads hold, with notes between them or not.
pub fn loads_are_of_turns()
    ensures { loads.loads_are_of_turns }
{}

/// States that each row of a copy has the content and the objectUpdateID that one reply showed for its id, whatever server
/// replied.
pub fn copied_rows_were_shown()
    ensures { seen.copied_rows_were_shown }
{}

/// States that each note of the longest run was taken once, in the order of places, and as it was received first.
pub fn each_note_is_taken_once()
    ensures { inbox.each_note_is_taken_once }
{}

/// States that at most 64 notes are held, early ones included, if no turn was refused.
pub fn at_most_64_are_held()
    ensures { known.at_most_64_are_held }
{}

/// States that the turns of loads show rows if all turns do, so the laws of attempts hold of them.
pub fn loads_show_rows()
    ensures { loads.loads_show_rows }
{}

/// States that each container of a copy counts each change under it once, from what it began with, whatever server replied with
/// rows and whoever sent notes.
pub fn trackers_count_each_change_once()
    ensures { trackers.trackers_count_each_change_once }
{}

/// States which notes are received: exactly those that were delivered since their name was accepted, or came early for the
/// request that was answered with it.
pub fn received_notes_came()
    ensures { inbox.received_notes_came }
{}

/// States that what was read of a copy's objects is exactly what replies to the reads of unread objects showed since its load
/// ended.
pub fn reads_are_replies()
    ensures { seen.reads_are_replies }
{}

/// States that what befell a copy stands in the order of the turns. So a read stands above a change exactly if its reply came
/// after the note of the change.
pub fn happenings_are_in_order()
    ensures { order.happenings_are_in_order }
{}

/// States that the attempt of a load, whether a copy stands, the number that the last ended load read and the position go by the
/// replies and the taken notes alone, if no turn is refused and replies show rows.
pub fn loads_go_by_replies()
    ensures { course.loads_go_by_replies }
{}

/// States that what a replica knows, says and refuses is the same under any names that tell subscriptions apart.
pub fn names_do_not_matter()
    ensures { named.names_do_not_matter }
{}

/// States that a note that comes within reach of the next place is given its own place.
pub fn near_notes_are_placed()
    ensures { wire.near_notes_are_placed }
{}

/// States that a note that is fewer places away than a wrap without a reach is given its own place, or is unknown and refused.
pub fn notes_are_placed_or_unknown()
    ensures { wire.notes_are_placed_or_unknown }
{}
