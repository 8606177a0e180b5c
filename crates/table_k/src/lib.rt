// Document 01's Table K: the theorem stands in specs/. There is no code here.
#![tactic(auto)]
