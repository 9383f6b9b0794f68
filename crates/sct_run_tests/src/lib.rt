//! Tests of desks, receipts and workers under gates. They show what no clause says: that the calls succeed if there is memory, and what
//! threads do side by side.
#![tactic(auto)]

#[cfg(test)]
mod desks;
#[cfg(test)]
mod gates;
#[cfg(test)]
mod receipts;
#[cfg(test)]
mod workers;
