// What the files of paper 01 are, place by place, and when one is refused before the walk. The definitions and laws stand in specs/.
#![tactic(auto)]
