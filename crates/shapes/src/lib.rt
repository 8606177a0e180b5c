// A line in a form, byte by byte: what the forms of a line say of it, as a reader meets its bytes. The definitions and laws stand in specs/; there is no
// code here.
#![tactic(auto)]
