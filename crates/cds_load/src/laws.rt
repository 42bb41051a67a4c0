//! Laws of loads: each clause is one of them.

ghost use Rattle.cds_load.specs.Attempts as attempts;
ghost use Rattle.cds_load.specs.Loads as laws;
ghost use Rattle.cds_load.specs.Seen as seen;

/// States that a load from a server whose number stays ends after exactly the reads that it takes, with the server's rows, and
/// runs until then.
pub fn loads_end()
    ensures { laws.loads_end }
{}

/// States that each row of a copy has the id, the content and the objectUpdateID of a row that a reply showed, whatever server
/// replied.
pub fn copied_rows_were_shown()
    ensures { seen.copied_rows_were_shown }
{}

/// States that the next ask is that of the attempt that runs. The attempt is the replies that were taken since the load began or
/// the number last changed, whatever server replied.
pub fn asks_are_of_attempts()
    ensures { attempts.asks_are_of_attempts }
{}

/// States that exactly the replies are refused that the attempt refuses: a reply of another kind than the ask's; a row instead of
/// the root's; and a page that cannot be, at the number after it.
pub fn refusals_are_of_attempts()
    ensures { attempts.refusals_are_of_attempts }
{}

/// States that a copy stands if and only if the attempt is complete: it has as many replies as a load of the rows that it showed
/// takes. The copy stands at the attempt's number.
pub fn answers_are_of_attempts()
    ensures { attempts.answers_are_of_attempts }
{}

/// States that the rows of a copy are those that the attempt showed, in ascending order of ids.
pub fn copies_are_of_attempts()
    ensures { attempts.copies_are_of_attempts }
{}

/// States that each even reply in an attempt is the number that was shown first.
pub fn even_replies_are_the_number()
    ensures { attempts.even_replies_are_the_number }
{}
