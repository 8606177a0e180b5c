// The count of pairs: definition and theorem stand in specs/. There is no code here.
#![tactic(auto)]
