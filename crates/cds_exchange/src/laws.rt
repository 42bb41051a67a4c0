//! Laws of exchanges, as the definitions say them. Calling a function gives its law.

ghost use Rattle.cds_exchange.specs.Laws.{AsksAreRead, HistoriesArePlain, HonestRepliesAreRead, HostsMakeBases, MomentsCanBeShown, OneReading, PagesAreShort, ReadingsAreOne};

/// Bytes show at most one thing to an ask.
pub fn one_reading()
    ensures { OneReading }
{}

/// What is read of bytes is one thing: what they show, or that they show nothing.
pub fn readings_are_one()
    ensures { ReadingsAreOne }
{}

/// The request of an ask is read as its action, whatever comes after it. The address must have the path `/control`, no
/// query, and a host and port in the form of HOST.
pub fn asks_are_read()
    ensures { AsksAreRead }
{}

/// `http://` and a HOST in its form is a base.
pub fn hosts_make_bases()
    ensures { HostsMakeBases }
{}

/// The body of a page of plain rows has at most 14,000 bytes for each row, and 2,048 more.
pub fn pages_are_short()
    ensures { PagesAreShort }
{}

/// What an honest server writes of what it may show is read as that, whatever comes after it.
pub fn honest_replies_are_read()
    ensures { HonestRepliesAreRead }
{}

/// What a server has at a moment may be shown to any ask, if all of it is plain.
pub fn moments_can_be_shown()
    ensures { MomentsCanBeShown }
{}

/// What a server has after scans of plain records is plain, if none of them is refused and the number has 32 bits.
pub fn histories_are_plain()
    ensures { HistoriesArePlain }
{}
