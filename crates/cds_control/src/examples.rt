//! Small requests, evaluated by the definitions.

ghost use Rattle.cds_control.specs.Examples.{ActionsAreAnswered, CapabilitiesAreTold};

/// Shows what actions are answered over a folder with one track.
pub fn actions_are_answered()
    ensures { ActionsAreAnswered }
{}

/// Shows the texts of the capabilities.
pub fn capabilities_are_told()
    ensures { CapabilitiesAreTold }
{}
