// Texts that the second program was asked about, as statements about the definitions: they stand in specs/. There is no code here.
#![tactic(auto)]
