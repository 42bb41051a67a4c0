//! Pages of small catalogs, evaluated by the definitions.

ghost use Rattle.cds_browse.specs.Examples.{LackingParents, PagesAreCounted, PagesAreSorted, SearchesAreAnswered};

/// Shows pages and refusals over a folder with one track.
pub fn pages_are_counted()
    ensures { PagesAreCounted }
{}

/// Shows pages of a track and a folder in the order of sort keys.
pub fn pages_are_sorted()
    ensures { PagesAreSorted }
{}

/// Shows pages and refusals of searches over a folder with one track.
pub fn searches_are_answered()
    ensures { SearchesAreAnswered }
{}

/// Shows pages over rows in which the parent of a track has no row.
pub fn lacking_parents_are_passed_over()
    ensures { LackingParents }
{}
