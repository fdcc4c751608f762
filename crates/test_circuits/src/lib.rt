#![tactic(auto)]
//! Tests of amplitudes, their sums and tables, gates, circuits, the meaning of circuits and their texts, on values worked by hand.

#[cfg(test)]
mod amplitudes;
#[cfg(test)]
mod circuits;
#[cfg(test)]
mod gates;
#[cfg(test)]
mod runs;
#[cfg(test)]
mod sums;
#[cfg(test)]
mod teleportation;
#[cfg(test)]
mod texts;
