//! Releases and subscriptions evaluated from the definitions: each clause is one of them.

ghost use Rattle.cds_commands.specs.Examples as examples;
ghost use Rattle.cds_commands.specs.Names as names;
ghost use Rattle.cds_commands.specs.PlaceLaws as places;

/// States that releases are 200 milliseconds apart, and that one tells all scans before it.
pub fn releases_are_apart()
    ensures { examples.releases_are_apart }
{}

/// States which containers these releases tell.
pub fn releases_tell_containers()
    ensures { examples.releases_tell_containers }
{}

/// States that a subscription lives for the seconds that it is granted.
pub fn subscriptions_run_out()
    ensures { examples.subscriptions_run_out }
{}

/// States that a renewal begins the time of a subscription anew, if it has not run out.
pub fn subscriptions_are_renewed()
    ensures { examples.subscriptions_are_renewed }
{}

/// States what follows if moments fall from command to command.
pub fn moments_may_fall()
    ensures { examples.moments_may_fall }
{}

/// States that one more subscription has room if fewer than 64 live.
pub fn room_for_64_subscriptions()
    ensures { examples.room_for_64_subscriptions }
{}

/// States names that are evaluated from their definition.
pub fn names_evaluated()
    ensures { names.names_evaluated }
{}

/// States the places of some SEQs if these wrap after 256, and at the greatest wrap.
pub fn places_evaluated()
    ensures { places.places_evaluated }
{}
