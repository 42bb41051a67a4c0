//! Laws of the definitions. Calling a function gives its law.

ghost use Rattle.cds_criteria.specs.Laws as laws;
ghost use Rattle.cds_criteria.specs.SortLaws as sort_laws;

/// States that an accepted text spells its criteria, and that a refused one has the fault at its place, both by the grammar.
pub fn outcomes_hold()
    ensures { laws.outcomes_hold }
{}

/// States that each text that spells criteria is accepted with them, and that each fault is the answer.
pub fn outcomes_are_given()
    ensures { laws.outcomes_are_given }
{}

/// States that every text has one outcome by the grammar and no other.
pub fn outcomes_are_unique()
    ensures { laws.outcomes_are_unique }
{}

/// States that each token that is found stands at its place.
pub fn tokens_stand_at_their_places()
    ensures { laws.tokens_stand_at_their_places }
{}

/// States that accepted sort criteria spell their keys.
pub fn keys_are_spelled()
    ensures { sort_laws.keys_are_spelled }
{}

/// States that each text of sort keys is accepted with them, if it has at most 4,096 bytes.
pub fn spelled_keys_are_read()
    ensures { sort_laws.spelled_keys_are_read }
{}

/// States that the order by keys and then by ids is total.
pub fn order_is_total()
    ensures { sort_laws.order_is_total }
{}

/// States that putting rows in order loses none and adds none.
pub fn ordered_are_the_same()
    ensures { sort_laws.ordered_are_the_same }
{}

/// States that rows are put in order, each once.
pub fn rows_are_ordered()
    ensures { sort_laws.rows_are_ordered }
{}

/// States that no other list of the rows is in order, if their ids ascend.
pub fn order_is_unique()
    ensures { sort_laws.order_is_unique }
{}

/// States that rows in ascending order of ids stay as they are if there are no keys.
pub fn no_keys_keep()
    ensures { sort_laws.no_keys_keep }
{}

/// States that from each descendant parents lead to the container.
pub fn ways_lead_down()
    ensures { sort_laws.ways_lead_down }
{}

/// States that from each row of a list, however far below the container it is, parents lead to the container in as many steps as
/// there are rows.
pub fn ways_are_found()
    ensures { sort_laws.ways_are_found }
{}
