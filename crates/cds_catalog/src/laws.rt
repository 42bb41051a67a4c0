//! The laws of the catalog: each function's contract is one of them, and calling it gives the law.

ghost use Rattle.cds_catalog.specs.FoundLaws as found;
ghost use Rattle.cds_catalog.specs.Laws as laws;
ghost use Rattle.cds_catalog.specs.RowLaws as rows;

/// States that records of which none is refused make a folder map, with one place for each record.
pub fn accepted_records_are_a_library()
    ensures { laws.accepted_records_are_a_library }
{}

/// States that a scan is refused at its first record that cannot stand, and only if there is one.
pub fn bad_records_have_their_line()
    ensures { laws.bad_records_have_their_line }
{}

/// States that at the place of each accepted record stands what it says, and that nothing stands elsewhere.
pub fn accepted_records_stand_at_their_places()
    ensures { laws.accepted_records_stand_at_their_places }
{}

/// States that each change of a history may follow those before it.
pub fn changes_are_legal()
    ensures { laws.changes_are_legal }
{}

/// States that what stands after all changes of a history is what its newest folder map has.
pub fn changes_replay_the_library()
    ensures { laws.changes_replay_the_library }
{}

/// States that the catalog at a scan end is that of each history that ended there.
pub fn catalog_at_a_scan_end()
    ensures { laws.catalog_at_a_scan_end }
{}

/// States that a scan that finds what the last one found makes no change.
pub fn equal_libraries_make_no_change()
    ensures { laws.equal_libraries_make_no_change }
{}

/// States that scans between two equal numbers changed neither the folder map nor the catalog.
pub fn equal_numbers_have_equal_catalogs()
    ensures { laws.equal_numbers_have_equal_catalogs }
{}

/// States that an id and an objectUpdateID determine within a history what the object says.
pub fn versions_determine_contents()
    ensures { laws.versions_determine_contents }
{}

/// States that the changes of a scan, made one by one on what stood before it, lead to the catalog counted afresh after it.
pub fn steps_lead_to_the_catalog()
    ensures { laws.steps_lead_to_the_catalog }
{}

/// States that no number of a row is above the number that stands, and no id above the ids that were drawn. There is one row for
/// the root and one for each place of the newest folder map.
pub fn rows_are_within()
    ensures { laws.rows_are_within }
{}

/// States that the rows of a catalog are a tree under the root, in ascending order of ids (UPnP ContentDirectory:4 on the
/// hierarchy of objects).
pub fn catalogs_are_trees()
    ensures { laws.catalogs_are_trees }
{}

/// States that each place of the newest folder map, and the root's, has exactly its own row, and that no other place has one.
pub fn places_have_their_rows()
    ensures { rows.places_have_their_rows }
{}

/// States that an id names one place for the whole history.
pub fn ids_name_one_place()
    ensures { rows.ids_name_one_place }
{}

/// States that every number of a row lies from the first number to the newest one. The ids drawn, with the deletions that a
/// container counts, are at most as many as the numbers given.
pub fn numbers_lie_between()
    ensures { rows.numbers_lie_between }
{}

/// States that a scan deletes, adds or modifies what stands at a place if and only if that is owed.
pub fn scans_find_what_changed()
    ensures { found.scans_find_what_changed }
{}

/// States that the deletions of a scan come first, in descending order of places, and then all else in ascending order.
pub fn scans_find_in_order()
    ensures { found.scans_find_in_order }
{}
