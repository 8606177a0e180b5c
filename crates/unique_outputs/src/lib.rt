// Two results that meet the contract of a public function of what the two programs write are equal. All of it is theorems: specs/.
#![tactic(auto)]
