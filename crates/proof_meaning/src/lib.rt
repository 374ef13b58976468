// What acceptance by the proof check means. The definitions and theorems stand in specs/.
#![tactic(auto)]
