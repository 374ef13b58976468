// Formulas and terms without types, each as one number: equal trees have equal numbers, and all that the derivation check asks of a tree is
// answered from its number.
#![tactic(auto)]

pub mod keys;
pub mod parts;
pub mod shapes;
