//! Tests of public calls that the program does not make. They show what no clause says: that the calls succeed if there is memory,
//! texts of `Display`, and rules of messages that no line can break.
#![tactic(auto)]

#[cfg(test)]
mod archives;
#[cfg(test)]
mod deltas;
#[cfg(test)]
mod elements;
#[cfg(test)]
mod messages;
#[cfg(test)]
mod reasons;
#[cfg(test)]
mod texts;
#[cfg(test)]
mod views;
#[cfg(test)]
mod worlds;
