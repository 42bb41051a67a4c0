//! Small requests, evaluated by the definitions.

ghost use Rattle.cds_server.specs.Examples.{RequestsAreRouted, ActionsAreAnswered, SubscriptionsAreAnswered};

/// Shows the routes of requests.
pub fn requests_are_routed()
    ensures { RequestsAreRouted }
{}

/// Shows the number and the token of a server.
pub fn actions_are_answered()
    ensures { ActionsAreAnswered }
{}

/// Shows what comes of requests about subscriptions, and what a release sends.
pub fn subscriptions_are_answered()
    ensures { SubscriptionsAreAnswered }
{}
