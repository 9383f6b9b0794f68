//! Several sites of one run, each on threads of its own. An intake worker takes the site's messages, an exchange worker
//! accepts the entries of the other sites, and a query worker asks queries while the others work.
//! [`fill_sites`] fills one site from each input, closes the desks with all receipts that the workers kept,
//! and returns the cores. If several sites fail, [`reported_fault`] says which fault is reported. A
//! [`Gate`] may hold workers at certain points.
//!
//! The steps of a worker at the desk of a site are public too. [`take_for_receipt`], [`publish_for_receipt`] and
//! [`accept_for_receipt`] call the desk, [`Kept`] holds the receipts, and [`Kept::close`] closes the desk with them.
#![tactic(auto)]

mod exchange_worker;
mod fault;
mod filled;
mod gate;
mod intake_worker;
mod kept;
mod query_worker;
mod receipts;
mod reporting;
mod run;
mod senders;
mod site_work;
mod sites;
mod workers;

pub use fault::{SiteFault, WorkFault};
pub use filled::{Filled, Sites};
pub use gate::{FreeGate, Gate, Held, Point};
pub use kept::{Kept, Takes};
pub use receipts::{accept_for_receipt, publish_for_receipt, take_for_receipt};
pub use reporting::reported_fault;
pub use sites::fill_sites;
