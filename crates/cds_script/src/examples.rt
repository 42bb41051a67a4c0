//! Scripts whose reports are evaluated from the definitions: each clause is one of them.

ghost use Rattle.cds_script.specs.Examples as examples;
ghost use Rattle.cds_script.specs.ExamplesOfNotes as noted;

/// States that an empty script writes nothing.
pub fn empty_script()
    ensures { examples.empty_script }
{}

/// States that the replica is behind its load before any was begun.
pub fn ask_before_any_load()
    ensures { examples.ask_before_any_load }
{}

/// States the report of a folder with a track, one scan and a whole load.
pub fn folder_with_a_track()
    ensures { examples.folder_with_a_track }
{}

/// States that two scans of an empty library leave the root alone.
pub fn empty_library()
    ensures { examples.empty_library }
{}

/// States that a scan in the middle of a load lets it begin again.
pub fn scan_during_a_load()
    ensures { examples.scan_during_a_load }
{}

/// States that a track that becomes a folder has a new id.
pub fn track_becomes_a_folder()
    ensures { examples.track_becomes_a_folder }
{}

/// States that a scan of a track without the folder that holds it is refused.
pub fn track_without_its_folder()
    ensures { examples.track_without_its_folder }
{}

/// States that a scan whose changes would pass the last number is refused.
pub fn numbers_end()
    ensures { examples.numbers_end }
{}

/// States that a note that was not sent cannot be delivered.
pub fn note_never_sent()
    ensures { examples.note_never_sent }
{}

/// States that moments never fall, and have 64 bits.
pub fn moments_rise()
    ensures { examples.moments_rise }
{}

/// States that the first number comes before all else.
pub fn first_number_first()
    ensures { examples.first_number_first }
{}

/// States that the SEQ after which comes SEQ 1 is named once, before all else but the first number.
pub fn wrap_first()
    ensures { examples.wrap_first }
{}

/// States that a line outside the grammar ends the script.
pub fn broken_line()
    ensures { examples.broken_line }
{}

/// States that a line of 4,096 bytes is the longest.
pub fn longest_line()
    ensures { examples.longest_line }
{}

/// States that a note that comes before the one that it follows leaves a gap.
pub fn notes_out_of_order()
    ensures { noted.notes_out_of_order }
{}

/// States that a repeated note is counted once.
pub fn repeated_notes()
    ensures { noted.repeated_notes }
{}

/// States that an object that is gone when it is read stays unread until its deletion is told.
pub fn read_of_what_is_gone()
    ensures { noted.read_of_what_is_gone }
{}

/// States that an object that is read in a later version than notes tell holds the copy back.
pub fn read_ahead_of_notes()
    ensures { noted.read_ahead_of_notes }
{}

/// States that releases are 200 milliseconds apart, and never cut a scan in two.
pub fn releases_are_apart()
    ensures { noted.releases_are_apart }
{}

/// States what a release tells of two scans.
pub fn releases_tell()
    ensures { noted.releases_tell }
{}

/// States that a first note above the position drops the copy and begins a load.
pub fn first_note_above()
    ensures { noted.first_note_above }
{}

/// States the report of a note that comes before its subscription is accepted, and of a change that is told twice.
pub fn early_note()
    ensures { noted.early_note }
{}

/// States the report of a first note that comes again.
pub fn repeat_of_the_first()
    ensures { noted.repeat_of_the_first }
{}

/// States that a reply that is lost leaves the ask.
pub fn lost_reply()
    ensures { noted.lost_reply }
{}

/// States that a reply reaches the replica once.
pub fn replies_are_used_up()
    ensures { noted.replies_are_used_up }
{}

/// States that at most 64 subscriptions live.
pub fn subscriptions_are_limited()
    ensures { noted.subscriptions_are_limited }
{}

/// States that a subscription is given up once.
pub fn given_up_once()
    ensures { noted.given_up_once }
{}

/// States that a subscription is renewed if it has not run out, and then lives on.
pub fn subscriptions_are_renewed()
    ensures { noted.subscriptions_are_renewed }
{}

/// States that a second subscribe request drops the early notes of the first.
pub fn early_notes_are_dropped()
    ensures { noted.early_notes_are_dropped }
{}

/// States that a missing note is named before a load that has not ended.
pub fn gap_before_load()
    ensures { noted.gap_before_load }
{}

/// States that a first note above the position lets a running load begin anew.
pub fn first_note_while_loading()
    ensures { noted.first_note_while_loading }
{}

/// States that at most 64 notes are held.
pub fn sixty_four_are_held()
    ensures { noted.sixty_four_are_held }
{}
