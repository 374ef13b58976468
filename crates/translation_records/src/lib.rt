// Every record of the blocks that the translation writes is without a fault: laws only (no code).
#![tactic(auto)]
