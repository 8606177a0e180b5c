// The configurations that the runtime accepts: the definition and its test stand in specs/. There is no code here.
#![tactic(auto)]
