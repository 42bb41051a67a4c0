//! Laws of what a server accepted: each function's contract is one of them, and calling it gives the law.

ghost use Rattle.cds_commands.specs.Names as names;
ghost use Rattle.cds_commands.specs.NoteLaws as notes;
ghost use Rattle.cds_commands.specs.PlaceLaws as places;
ghost use Rattle.cds_commands.specs.ReleaseLaws as releases;
ghost use Rattle.cds_commands.specs.ServerLaws as server;
ghost use Rattle.cds_commands.specs.SubscriptionLaws as subscriptions;

/// States that no change lies between two equal numbers.
pub fn equal_numbers_have_no_change_between()
    ensures { server.equal_numbers_have_no_change_between }
{}

/// States that the notes of a subscription after its initial one hold every change above that one's number, up to the last one's.
/// They hold each once and in order, whatever was released before it was granted.
pub fn notes_hold_every_change()
    ensures { notes.notes_hold_every_change }
{}

/// States that each release is that of a tick. It begins at the end of the one before it, and comes after its pause. It ends at
/// the greatest scan end then that its size allows, and has at least one change.
pub fn releases_go_on()
    ensures { releases.releases_go_on }
{}

/// States that the notes of a subscription have the places 0, 1, 2 and so on.
pub fn places_count_from_zero()
    ensures { releases.places_count_from_zero }
{}

/// States that no two of fewer than 2^32 grants of a server have one name.
pub fn names_differ()
    ensures { names.names_differ }
{}

/// States that a name has 128 bits.
pub fn names_are_short()
    ensures { names.names_are_short }
{}

/// States that a subscription lives at a moment if and only if all of this holds: it was granted; it was not given up; no tick
/// came at or past its end; and the moment is before its end. Its end is that of its grant or its last renewal.
pub fn subscriptions_live_until_their_end()
    ensures { subscriptions.subscriptions_live_until_their_end }
{}

/// States that a tick releases if and only if some change waits, and no release came before or the pause after the last one is
/// over.
pub fn ticks_release_what_is_due()
    ensures { subscriptions.ticks_release_what_is_due }
{}

/// States that the release of a tick is one at which a subscription lived if and only if it lives at that moment.
pub fn releases_reach_what_lives()
    ensures { subscriptions.releases_reach_what_lives }
{}

/// States which notes a subscription gets from its grant on: its first note, with the number of that time, and one of each
/// release at which it lived. Its k-th note is that of the k-th such release.
pub fn notes_are_of_releases()
    ensures { subscriptions.notes_are_of_releases }
{}

/// States that the least place with a SEQ, from one on, is the true one if that is not a whole wrap away.
pub fn least_place_is_found()
    ensures { places.least_place_is_found }
{}

/// States that a note within reach of the next place is given its true place.
pub fn near_places_are_true()
    ensures { places.near_places_are_true }
{}

/// States that an old note which is not within reach, and not nearly a whole wrap away, is given no place.
pub fn old_places_are_none()
    ensures { places.old_places_are_none }
{}

/// States that a new note which is not within reach, and not nearly a whole wrap away, is given no place.
pub fn new_places_are_none()
    ensures { places.new_places_are_none }
{}

/// States that a place is the SEQ if fewer than 2^30 notes came and SEQs wrap after 4294967295.
pub fn places_are_seqs()
    ensures { places.places_are_seqs }
{}

/// States that the SEQ of a next place is the one after that of the place before it.
pub fn next_places_have_next_seqs()
    ensures { places.next_places_have_next_seqs }
{}
