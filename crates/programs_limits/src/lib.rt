// How many bytes of each file the programs read, and the room that they lend a translation. The numbers and their laws stand in specs/.
#![tactic(auto)]
