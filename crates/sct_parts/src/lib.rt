//! The laws of parts: of sets of messages that have nothing in common. Together they answer what each answers alone, and their totals add up.
#![tactic(auto)]

pub mod laws;
