// What is asked of a program, by the answers 3 to 9: the definitions stand in specs/. There is no code here.
#![tactic(auto)]
