// Every answer is within the bits that the C entries give it. The laws stand in specs/.
#![tactic(auto)]
