//! Files that are read by the definition: each clause is one of them.

ghost use Rattle.cds_flac.specs.Examples.{TitleIsRead, CutsAreTruncated, HeaderFaultsAreRefused, CommentFieldFaultsAreRefused, TextFaultsAreRefused, TextsBeforeFieldsDecide};

/// States how a file of one comment is read.
pub fn title_is_read()
    ensures { TitleIsRead }
{}

/// States how the same file is refused if it is cut off.
pub fn cuts_are_truncated()
    ensures { CutsAreTruncated }
{}

/// States how faults of the marker and of block headers are refused.
pub fn header_faults_are_refused()
    ensures { HeaderFaultsAreRefused }
{}

/// States how lengths and counts that reach past a comment block are refused.
pub fn comment_field_faults_are_refused()
    ensures { CommentFieldFaultsAreRefused }
{}

/// States that a text before a field that has no room is judged first.
pub fn texts_before_fields_decide()
    ensures { TextsBeforeFieldsDecide }
{}

/// States how texts of a comment block that are out of form are refused.
pub fn text_faults_are_refused()
    ensures { TextFaultsAreRefused }
{}
