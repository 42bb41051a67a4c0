//! What is proved of the definitions themselves. Calling a function gives its law.

ghost use Rattle.cds_didl.specs.Didl.{OneAnswer};
ghost use Rattle.cds_didl.specs.Fragment.{ReportIsTheWhole, NoNameIsForgotten};
ghost use Rattle.cds_didl.specs.Plain.{ContentsArePlain, RowsArePlain, CatalogsAreReadBack};
ghost use Rattle.cds_didl.specs.ReadBack.{RowsAreReadBack};

/// The text of a row in a report is the one with the filter of everything and an empty base.
pub fn report_is_the_whole()
    ensures { ReportIsTheWhole }
{}

/// A filter keeps at most 18 names of its text, and forgets none that an object has a property of. It wants the same known names,
/// and gives rows and documents the same text, as all names of its text.
pub fn no_name_is_forgotten()
    ensures { NoNameIsForgotten }
{}

/// Bytes have one answer, rows or one refusal, unless memory ran out.
pub fn one_answer()
    ensures { OneAnswer }
{}

/// Rows that are written with the whole filter are what is read of the document. Texts and base have to have allowed characters
/// only, and the document at most `INPUT_LIMIT` bytes.
pub fn rows_are_read_back()
    ensures { RowsAreReadBack }
{}

/// What is said of a file and of a folder is plain. Its texts have allowed characters and at most 255 bytes, and its numbers are
/// in the ranges of their types.
pub fn contents_are_plain()
    ensures { ContentsArePlain }
{}

/// If what each record says is plain, so is what each row of the catalog says.
pub fn rows_are_plain()
    ensures { RowsArePlain }
{}

/// Take the catalog of accepted scans of plain records, whose numbers are below 2^32. Written with the whole filter as a
/// document, it is what is read of the document. The base has to have allowed characters only, and the document at most
/// `INPUT_LIMIT` bytes.
pub fn catalogs_are_read_back()
    ensures { CatalogsAreReadBack }
{}
