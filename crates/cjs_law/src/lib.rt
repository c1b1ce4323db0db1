//! What the walk over a tree does, and what its acts come to: definitions and laws, for the code of the CommonJS
//! analysis.
#![tactic(auto)]

ghost use Rattle.cjs_law.specs.Laws.{ActsDecideTheLists};
ghost use Rattle.cjs_law.specs.Rows.{WalkedRowsDecideTheActs};
ghost use Rattle.cjs_law.specs.Walk.{WalkReachesWhatIsNotSkipped};

mod event;

pub use event::Event;

/// The laws of the walk and of its acts, which the analysis promises as well.
pub fn laws()
    ensures walk { WalkReachesWhatIsNotSkipped }
    ensures acts { WalkedRowsDecideTheActs }
    ensures lists { ActsDecideTheLists }
{}
