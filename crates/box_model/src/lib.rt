#![tactic(auto)]

ghost use Rattle.box_model.specs.Answers.{AlwaysAnswerable};
ghost use Rattle.box_model.specs.Laws.{AlwaysKept};

/// A theorem on the definitions in specs/: every log of a box keeps the laws.
pub fn laws_are_kept()
    ensures { AlwaysKept }
{}

/// A theorem on the definitions in specs/: every call has an answer in every state.
pub fn every_call_has_an_answer()
    ensures { AlwaysAnswerable }
{}
