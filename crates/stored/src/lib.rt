// The values of a machine in a room of the flat arrays, and the tables that a rule looks into: laws, in specs/. There is no code here.
#![tactic(auto)]
