//! Laws of searches and of what is found. Calling a function gives its law.

ghost use Rattle.cds_ssdp.specs.Laws.{DescriptionsAreDocuments, OneAnswer, OneFound, OneSearch, RepliesAreReadBack, TargetsAreTheTable};
ghost use Rattle.cds_ssdp.specs.Service.{IsDescribed};

/// A datagram searches for one text at most.
pub fn one_search()
    ensures { OneSearch }
{}

/// A datagram has one answer.
pub fn one_answer()
    ensures { OneAnswer }
{}

/// A datagram tells of one thing at most.
pub fn one_found()
    ensures { OneFound }
{}

/// What is found is the table of targets: each row is met, whatever rows come before it.
pub fn targets_are_the_table()
    ensures { TargetsAreTheTable }
{}

/// If the location is one, each reply to a search tells of its target, under its name, with the location of the device.
pub fn replies_are_read_back()
    ensures { RepliesAreReadBack }
{}

/// Both descriptions are documents of XML, with the elements that `device_said` and `service_said` list.
pub fn descriptions_are_documents()
    ensures { DescriptionsAreDocuments }
{}

/// The actions that are described are those of control, with the names of their arguments and results, and of their service.
pub fn descriptions_name_what_is_served()
    ensures { IsDescribed }
{}
