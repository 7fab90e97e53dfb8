//! How often each action happened.

ghost use Rattle.std.specs.Prelude.{◌≡◌, ◌^◌, List, [], ◌∷◌, ◌++◌};
ghost use Rattle.ff_headers.specs.declared.rule.Action.{Action as Done};
ghost use Rattle.generated_load.specs.Counts.{AreBelow, counts_of};

use cap_table::MOST_PAIRS;
use ff_headers::Action;

/// How many queues are counted: as many as a device may have.
const QUEUES: usize = MOST_PAIRS as usize;

/// How many frames were dropped, how many got the default, and how many each queue got.
#[derive(Clone, Copy, Debug, PartialEq, Eq)]
pub struct ActionCounts {
    pub drop: u64,
    pub default: u64,
    pub queues: [u64; QUEUES],
}

impl ActionCounts {
    /// No action.
    #[tactic(auto, unfolding(crate::specs::Counts::counts_of))]
    pub fn new() -> ActionCounts
        ensures { result ≡ counts_of [] }
    {
        ActionCounts {
            drop: 0,
            default: 0,
            queues: [0; QUEUES],
        }
    }

    /// Counts one more action. A queue past the last one is counted nowhere.
    #[tactic(auto, unfolding(crate::specs::Counts::counts_of))]
    pub fn add(&mut self, action: Action)
        requires { AreBelow (2 ^ 32) self.old }
        ensures { (actions : List Done) → self.old ≡ counts_of actions
            → self.new ≡ counts_of (actions ++ action ∷ []) }
    {
        match action {
            Action::Drop => self.drop += 1,
            Action::Default => self.default += 1,
            Action::Queue(queue) => {
                let place = usize::from(queue);
                if place < QUEUES {
                    self.queues[place] += 1;
                }
            }
        }
    }
}
