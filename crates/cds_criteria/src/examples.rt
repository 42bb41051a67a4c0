//! Criteria, sort keys and rows that are evaluated by the definitions. Calling a function gives its rows.

ghost use Rattle.cds_criteria.specs.CriteriaExamples as criteria;
ghost use Rattle.cds_criteria.specs.LongExamples as long;
ghost use Rattle.cds_criteria.specs.RowExamples as rows;
ghost use Rattle.cds_criteria.specs.SortExamples as sorts;

/// Shows texts and the criteria that they are.
pub fn criteria_are_read()
    ensures { criteria.CriteriaAreRead }
{}

/// Shows texts that are no criteria, and the places at which they are refused.
pub fn faults_have_places()
    ensures { criteria.FaultsHavePlaces }
{}

/// Shows texts and the sort keys that they are.
pub fn keys_are_read()
    ensures { sorts.KeysAreRead }
{}

/// Shows texts that are no sort keys, and the places at which they are refused.
pub fn sort_faults_have_places()
    ensures { sorts.SortFaultsHavePlaces }
{}

/// Shows texts of 4,096 and of 4,097 bytes.
pub fn long_texts_are_refused()
    ensures { long.LongTexts }
{}

/// Shows small lists of rows in the order of sort keys.
pub fn rows_are_sorted()
    ensures { rows.RowsAreSorted }
{}

/// Shows which criteria a track and a folder meet.
pub fn criteria_are_met()
    ensures { rows.CriteriaAreMet }
{}

/// Shows the descendants of containers, also among rows that are no tree.
pub fn descendants_are_found()
    ensures { rows.DescendantsAreFound }
{}
