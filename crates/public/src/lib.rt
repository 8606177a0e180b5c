// The public step, run and regroup, with the answers that are given before the first choice: the definitions stand in specs/. There is no code here.
#![tactic(auto)]
