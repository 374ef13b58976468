// The blocks of the translation derive what they should. The laws stand in specs/.
#![tactic(auto)]
