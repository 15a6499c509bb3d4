//! A step of the plain machine is a step of the ideal machine seen through its places. Theorems over definitions; no code.
#![tactic(auto)]
