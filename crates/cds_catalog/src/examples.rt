//! Small libraries whose catalogs are evaluated from the definitions: each clause is one of them.

ghost use Rattle.cds_catalog.specs.Examples as examples;

/// States that two scans of an empty library leave the root alone, and no number.
pub fn two_empty_scans()
    ensures { examples.two_empty_scans }
{}

/// States the catalog of a folder with one track.
pub fn one_scan_of_a_folder()
    ensures { examples.one_scan_of_a_folder }
{}

/// States that a track that becomes a folder is one deletion and one addition with a new id.
pub fn kind_change_draws_a_new_id()
    ensures { examples.kind_change_draws_a_new_id }
{}

/// States that a folder that goes with its track and comes again starts anew, and that a changed track keeps its id.
pub fn folder_comes_again()
    ensures { examples.folder_comes_again }
{}
