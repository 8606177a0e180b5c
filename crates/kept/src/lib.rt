// Every step keeps acceptance: the theorems stand in specs/. There is no code here.
#![tactic(auto)]
