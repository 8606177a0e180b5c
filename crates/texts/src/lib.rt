// The line format, and the answer to a text: the definitions stand in specs/. There is no code here.
#![tactic(auto)]
