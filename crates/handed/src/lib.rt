// What is handed in, a program in tables and a configuration in rooms: when it is one (answer 20), and what the step of it is. All of that stands in specs/.
#![tactic(auto)]

use configs::Config;
use engine::Outcome;

// What a step leaves: the configuration after it, and the rule it took or the answer it was refused with.
// stays: may not change: step_of, whose value this is
#[derive(Clone, Copy)]
pub struct Stepped {
    pub config: Config,
    pub outcome: Outcome,
}
