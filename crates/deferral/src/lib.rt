// Deferral after a return: the theorems stand in specs/. There is no code here.
#![tactic(auto)]
