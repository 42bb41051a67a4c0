//! Spans of small histories that are evaluated from the definitions: each clause is one of them.

ghost use Rattle.cds_changes.specs.Examples as examples;

/// States that a folder that is added with its track is a subtree update.
pub fn added_subtree()
    ensures { examples.added_subtree }
{}

/// States that a folder that goes with its track is one too, and that what comes again has new ids.
pub fn deleted_subtree()
    ensures { examples.deleted_subtree }
{}

/// States that a folder with objects below it that becomes a track goes as a subtree.
pub fn kinds_change()
    ensures { examples.kinds_change }
{}

/// States that a folder within a folder belongs to the outer one's subtree update.
pub fn nested_subtrees()
    ensures { examples.nested_subtrees }
{}

/// States that a span of two scans touches each container once, with the last number.
pub fn span_of_two_scans()
    ensures { examples.span_of_two_scans }
{}

/// States that a folder that comes and goes within a span is none of its containers.
pub fn what_comes_and_goes()
    ensures { examples.what_comes_and_goes }
{}
