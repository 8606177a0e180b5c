// What a step of the engine answers, and what its rule functions are asked and leave: specs/Engine.antt.
#![tactic(auto)]

use answers::Answer;
use rules::Rule;

// A choice takes a step by a rule, or it is refused with an answer.
pub type Outcome = Result<Rule, Answer>;
