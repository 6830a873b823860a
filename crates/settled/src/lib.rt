#![tactic(auto)]

ghost use Rattle.settled.specs.Settled.{Settled};

/// A theorem on the definitions: they give each settled case.
pub fn settled_cases()
    ensures { Settled }
{}
