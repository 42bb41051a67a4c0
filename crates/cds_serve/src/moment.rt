//! The moments at which turns are taken.

ghost use Rattle.std.specs.Prelude.{◌≡◌, ◌≤◌};
ghost use Rattle.cds_serve.specs.Told.{IsMoment};

use cds_outside::Clock;

/// Asks the clock for the moment now and keeps it as the last one that it gave. If the clock failed, the moment is the last one
/// again.
pub(crate) fn ask_moment<T: Clock>(clock: &mut T, last: &mut u64) -> u64
    ensures kept { result ≡ last.new }
    ensures moment { IsMoment (T.told clock.old) (T.told clock.new) last.old last.new }
    ensures never_falls { (T.told clock.old).faults ≤ (T.told clock.new).faults }
{
    if let Ok(moment) = clock.now() {
        *last = moment;
    }
    *last
}
