//! Laws of the subscriptions that a book keeps. The contract of each function is one of them, and calling it gives the
//! law.

ghost use Rattle.cds_gena.specs.Served as served;
ghost use Rattle.cds_gena.specs.SubscribedLaws as laws;
ghost use Rattle.cds_gena.specs.WrittenLaws as written;

/// Before any command nothing is granted.
pub fn nothing_is_granted_at_first()
    ensures { laws.nothing_is_granted_at_first }
{}

/// A grant makes one more subscription, which gets its first note.
pub fn grants_make_one_more()
    ensures { laws.grants_make_one_more }
{}

/// A renewal puts off the end of one subscription.
pub fn renewals_put_off()
    ensures { laws.renewals_put_off }
{}

/// A subscription that is given up goes.
pub fn ends_drop()
    ensures { laws.ends_drop }
{}

/// A tick without a release drops the subscriptions that have run out.
pub fn ticks_expire()
    ensures { laws.ticks_expire }
{}

/// A tick with a release sends a note to each of the others, with its next SEQ, in the order in which they were
/// granted.
pub fn ticks_notify()
    ensures { laws.ticks_notify }
{}

/// Scans and the stop change nothing.
pub fn other_commands_change_nothing()
    ensures { laws.other_commands_change_nothing }
{}

/// The subscriptions that live at a moment are those that have not run out.
pub fn living_are_alive()
    ensures { laws.living_are_alive }
{}

/// A subscription is refused exactly if no name is left, or if the limit of living subscriptions is reached.
pub fn grants_are_refused()
    ensures { laws.grants_are_refused }
{}

/// At most 64 live if every command was accepted and no moment is before an earlier one.
pub fn few_live()
    ensures { served.few_live }
{}

/// A name leads to a number exactly if it is the name of this number and the subscription of this number lives.
pub fn names_are_of_numbers()
    ensures { served.names_are_of_numbers }
{}

/// The text of a SID is read as its name.
pub fn names_are_read_back()
    ensures { served.names_are_read_back }
{}

/// What `write_subscribe` writes is read, whatever comes after it, as a SUBSCRIBE request to its address. It asks for a
/// subscription with this callback for 1,800 seconds. Its head must be within the limit of a head.
pub fn subscribes_are_read()
    ensures { written.subscribes_are_read }
{}

/// What `write_renewal` writes is read so, too, as the renewal of this subscription for 1,800 seconds.
pub fn renewals_are_read()
    ensures { written.renewals_are_read }
{}

/// What `write_unsubscribe` writes is read so, too, as the end of this subscription.
pub fn unsubscribes_are_read()
    ensures { written.unsubscribes_are_read }
{}

/// A written reply that grants a name for 1,800 to 86,400 seconds is read as that.
pub fn leases_are_read()
    ensures { written.leases_are_read }
{}

/// A reply with another status than 200 grants nothing.
pub fn others_grant_nothing()
    ensures { written.others_grant_nothing }
{}
