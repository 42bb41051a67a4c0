//! Small examples, evaluated by the definitions.

ghost use Rattle.cds_http.specs.Examples.{HeadsAreCut, BodiesAreFramed, BodiesAreTaken};

/// Cuts small heads, chunk lines and trailers by the definition.
pub fn heads_are_cut()
    ensures { HeadsAreCut }
{}

/// Evaluates the rule for the body, by the fields, by the definition.
pub fn bodies_are_framed()
    ensures { BodiesAreFramed }
{}

/// Takes small bodies by the definition.
pub fn bodies_are_taken()
    ensures { BodiesAreTaken }
{}
