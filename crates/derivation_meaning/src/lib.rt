// What acceptance of a derivation means. The theorems stand in specs/.
#![tactic(auto)]
