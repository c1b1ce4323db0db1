//! Trials of the analyses that are proved by computation, each from the bytes of a tree block.
#![tactic(auto)]

ghost use Rattle.proved_trials.specs.Trials.{TrialsStand};

/// What the analyses find in the trials' blocks.
pub fn trials_stand()
    ensures { TrialsStand }
{}
