// Two results that meet a public function's contract are equal. All of it is theorems: specs/.
#![tactic(auto)]
