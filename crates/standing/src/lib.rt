// The tables that a program is written into, read back and judged as the program is: the theorems stand in specs/. There is no code here.
#![tactic(auto)]
