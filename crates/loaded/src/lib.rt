// What a text loads is sound: the theorems stand in specs/. There is no code here.
#![tactic(auto)]
