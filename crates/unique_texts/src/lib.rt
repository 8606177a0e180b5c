// Two results that meet the contract of a public function of the loader are equal. All of it is theorems: specs/.
#![tactic(auto)]
