// The regrouped list, and the regrouping theorem over any step: definitions and theorem stand in specs/. There is no code here.
#![tactic(auto)]
