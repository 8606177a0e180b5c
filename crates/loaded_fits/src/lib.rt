// What is loaded is never refused with 20: specs/LoadedFits.antt.
#![tactic(auto)]
