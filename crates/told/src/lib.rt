// What a line says is what is spoken by the number of its form and the places of its values: specs/Told.antt. There is no code here.
#![tactic(auto)]
