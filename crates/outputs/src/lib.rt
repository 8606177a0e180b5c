// What the run program and the regroup program write, byte for byte: the definitions stand in specs/. There is no code here.
#![tactic(auto)]
