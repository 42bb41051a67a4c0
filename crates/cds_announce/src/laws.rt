//! Laws of what a device answers. Calling a function gives its law.

ghost use Rattle.cds_announce.specs.Laws.{OneAnnouncement};

/// Datagrams have one list of replies.
pub fn one_announcement()
    ensures { OneAnnouncement }
{}
