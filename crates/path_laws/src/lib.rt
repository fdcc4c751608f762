#![tactic(auto)]
//! Laws that tie what a program means to the paths of its flat form, as plans and circuits ask for it: amplitudes, outcomes, parameters, and
//! that what a true forget undoes is 0 on each path that counts.

pub mod laws;
