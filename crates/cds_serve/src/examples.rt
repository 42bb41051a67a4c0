//! Small cases, evaluated by the definitions.

ghost use Rattle.cds_serve.specs.Examples.{LivesAreWritten, RequestsAreFree, TargetsAreRead};

/// Shows what a listening server writes, how its connections are shared, and how it names its subscriptions.
pub fn lives_are_written()
    ensures { LivesAreWritten }
{}

/// Shows which requests are answered without a turn.
pub fn requests_are_free()
    ensures { RequestsAreFree }
{}

/// Shows where messages go by their targets.
pub fn targets_are_read()
    ensures { TargetsAreRead }
{}
