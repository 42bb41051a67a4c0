//! How far a note that was sent is from those that the replica took.

ghost use Rattle.std.specs.Prelude.{◌≡◌, ◌-◌, Some, nat_eq, option_map};
ghost use Rattle.std.specs.Option.{option_eq};
ghost use Rattle.cds_commands.specs.Places.{reach};
ghost use Rattle.cds_follow.specs.Wire.{apart};
ghost use Rattle.cds_replay.specs.Session.{near_in};

use cds_replica::{Replica, Sid};

/// Returns the place near which a replica gives notes of a name their places, or `None` if it does not hear the name.
pub fn near_of(replica: &Replica, sid: Sid) -> Option<u64>
    ensures { result ≡ near_in replica.now.inbox sid.0 }
{
    if is_name(replica.accepted(), sid) {
        Some(replica.next_place())
    } else if replica.is_subscribing() {
        Some(0)
    } else {
        None
    }
}

/// Returns whether there is a name, and it is this one.
fn is_name(name: Option<Sid>, sid: Sid) -> bool
    ensures { result ≡ option_eq nat_eq (option_map (λ sid. sid.0) name) (Some sid.0) }
{
    match name {
        None => false,
        Some(name) => name.0 == sid.0,
    }
}

/// Returns the wrap without its reach: a note so many places away is not given its own place.
pub fn far_from(wrap: u32) -> u64
    ensures { result ≡ wrap - reach wrap }
{
    let wrap = u64::from(wrap);
    wrap - (wrap + 3) / 4
}

/// Returns how far two places are from each other.
pub fn distance(one: u64, other: u64) -> u64
    ensures { result ≡ apart one other }
{
    if one < other {
        other - one
    } else {
        one - other
    }
}
