// Meetings, and regrouping over the rules: definitions and theorem stand in specs/. There is no code here.
#![tactic(auto)]
