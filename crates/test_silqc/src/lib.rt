#![tactic(auto)]
//! Tests of the top call on files and sinks in memory: texts and notes, byte by byte.

#[cfg(test)]
mod commands;
#[cfg(test)]
mod read_back;
#[cfg(test)]
mod slow;
#[cfg(test)]
mod tables;
