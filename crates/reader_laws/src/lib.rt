// What files that pass places 1 to 12 give. The laws stand in specs/.
#![tactic(auto)]
