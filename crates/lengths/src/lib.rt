// How many bytes a line takes: a move 15 at least, a pair 4 with the byte behind it. The laws stand in specs/. There is no code here.
#![tactic(auto)]
