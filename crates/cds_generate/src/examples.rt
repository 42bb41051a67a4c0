//! Scripts that are evaluated from the definition: each clause is one of them.

ghost use Rattle.cds_generate.specs.Examples as examples;

/// States the script of three steps of a library of one track.
pub fn one_track()
    ensures { examples.one_track }
{}

/// States the script of five steps, of which one has a late note and one a new subscription.
pub fn late_note()
    ensures { examples.late_note }
{}

/// States the length and a checksum of the whole script of twelve tracks.
pub fn twelve_tracks()
    ensures { examples.twelve_tracks }
{}

/// States the length and a checksum of the whole script of sixty tracks with the greatest seed.
pub fn greatest_seed()
    ensures { examples.greatest_seed }
{}
