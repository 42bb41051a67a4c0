//! Small searches, replies and descriptions, evaluated by the definitions.

ghost use Rattle.cds_ssdp.specs.Examples.{DescriptionsAreWritten, LocationsAreAddresses, OthersTellNothing, RepliesAreWritten, RepliesTell, SearchesAreAnswered, SearchesAreRead, TargetsAreFound, TargetsAreNamed};

/// Finds what a text searches for.
pub fn targets_are_found()
    ensures { TargetsAreFound }
{}

/// Names what was found.
pub fn targets_are_named()
    ensures { TargetsAreNamed }
{}

/// Writes a reply.
pub fn replies_are_written()
    ensures { RepliesAreWritten }
{}

/// Reads searches, and messages that are none.
pub fn searches_are_read()
    ensures { SearchesAreRead }
{}

/// Answers searches by their bytes.
pub fn searches_are_answered()
    ensures { SearchesAreAnswered }
{}

/// Decides which texts are locations.
pub fn locations_are_addresses()
    ensures { LocationsAreAddresses }
{}

/// Reads messages that are answers to a search.
pub fn replies_tell()
    ensures { RepliesTell }
{}

/// Reads messages that are no answers to a search.
pub fn others_tell_nothing()
    ensures { OthersTellNothing }
{}

/// Writes both descriptions.
pub fn descriptions_are_written()
    ensures { DescriptionsAreWritten }
{}
