//! Statements over several crates at once.
#![tactic(auto)]

ghost use Rattle.laws.specs.Examples.{Reckoned};

/// The reckoned examples follow from the definitions.
pub fn examples_stand()
    ensures { Reckoned }
{}
