// What a run of what is handed in gives. What each number is stands in specs/HandedRuns.antt.
#![tactic(auto)]

use answers::Answer;
use configs::Config;

// How a run ended.
// stays: may not change: run_of, whose value this is: an answer beside a place, 0 for no choice that was refused
#[derive(Clone, Copy)]
pub struct Ending {
    pub answer: Answer,
    // the place of the choice that was refused, counted from 1
    pub place: usize,
    // the steps taken
    pub steps: usize,
}

// The configuration after a run, and how it ended.
#[derive(Clone, Copy)]
pub struct Ran {
    pub config: Config,
    pub end: Ending,
}
