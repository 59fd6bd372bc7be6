//! Consequences of the definitions.

ghost use Rattle.std.specs.Prelude.{◌≡◌, ◌≤◌, ℕ, List, []};
ghost use Rattle.harvest.specs.declared.choosing.TheConstants.{MOST_MEMORY};
ghost use Rattle.ranked.specs.Memory.{body_memory};
ghost use Rattle.ranked.specs.declared.find.Find.{Find};
ghost use Rattle.iterate.specs.declared.phase.Phase.{Phase};
ghost use Rattle.iterate.specs.declared.want.Input.TheVariants.{Begin};
ghost use Rattle.iterate.specs.Exchanges.{Exchange};
ghost use Rattle.iterate.specs.Laws.{OutcomeIsDue, ResolvingIsFit, ServfailIsUnanswered};
ghost use Rattle.iterate.specs.Task.{IsDueAt};
ghost use Rattle.iterate.specs.Wanted.{IsHarvested};

use crate::limits::{
    FIRST_STEPS, MOST_ALIASES, MOST_BEGUN, MOST_DEPTH, MOST_FINDS, MOST_SENDS, MOST_TARGETS,
};
use crate::served::DS;
use harvest::chosen_law;

/// An answer that resolves a question can be written.
#[tactic(auto, using(crate::proofs::FitLaws::resolved_is_fit))]
pub fn resolved_law()
    ensures { ResolvingIsFit }
{}

/// The first input of a task is `Begin`; each later one is the outcome of the last want.
#[tactic(auto, using(crate::proofs::DueLaws::first_is_due, crate::proofs::DueLaws::next_is_due))]
pub fn due_law()
    ensures first { (phase : Phase) → IsDueAt phase [] Begin }
    ensures next { OutcomeIsDue }
{}

/// SERVFAIL never answers a question that its first lookup settled: that lookup found neither a cached answer nor a local one.
#[tactic(auto, using(crate::proofs::FailLaws::fails_unanswered))]
pub fn servfail_law()
    ensures { ServfailIsUnanswered }
{}

/// The data of each find that a task hands to the book take little memory.
pub fn admission_law()
    ensures { (port : ℕ) (log : List Exchange) (find : Find) → IsHarvested port log find → body_memory find.body ≤ MOST_MEMORY }
{
    chosen_law();
}

/// The limits of a task: 16 aliases, 64 queries, 64 questions for addresses of servers, 8 of them open at once, and for the first
/// 5 servers of a list alone, and 64 finds of a response for the book. A task begins with room for 8 steps. DS has the number 43.
pub fn limits_law()
    ensures aliases { MOST_ALIASES ≡ 16 }
    ensures queries { MOST_SENDS ≡ 64 }
    ensures begun { MOST_BEGUN ≡ 64 }
    ensures depth { MOST_DEPTH ≡ 8 }
    ensures targets { MOST_TARGETS ≡ 5 }
    ensures finds { MOST_FINDS ≡ 64 }
    ensures steps { FIRST_STEPS ≡ 8 }
    ensures digest { DS ≡ 43 }
{}
