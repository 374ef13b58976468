// What a listing means: the nodes that it lists are those that the walk enters. Definitions and laws in specs/, no code.
#![tactic(auto)]
