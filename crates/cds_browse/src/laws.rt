//! Laws of pages, beside their definition. Calling a function gives its law.

ghost use Rattle.cds_browse.specs.Laws as laws;

/// States what pages of a container's children show, if they are asked one after the other. Each begins at the place at which
/// those before it ended. They show the first of the children in the order of the sort keys, and none twice. Once they are as many
/// as the total, they show every child in exactly one place.
pub fn pages_show_each_child_once()
    ensures { laws.pages_show_each_child_once }
{}

/// States what pages of a search show, if they are asked one after the other. They show the first of the matches in the order of
/// the sort keys, and none twice. Once they are as many as the total, they show every match in exactly one place.
pub fn pages_show_each_match_once()
    ensures { laws.pages_show_each_match_once }
{}

/// States that a page of Browse has at most 4,096 rows, and at most the count if one above 0 was asked for. It has no row only if
/// it begins at the total or after it.
pub fn pages_are_bounded()
    ensures { laws.pages_are_bounded }
{}

/// States the same of a page of Search.
pub fn found_pages_are_bounded()
    ensures { laws.found_pages_are_bounded }
{}

/// States that the page of an object itself is its one row, whatever count is asked for.
pub fn an_object_is_one_row()
    ensures { laws.an_object_is_one_row }
{}
