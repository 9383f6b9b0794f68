//! Whether a delta fits the logs of a site, and why not.

ghost use Rattle.std.specs.Prelude.{◌≡◌, ◌≢◌, None, Ok, Err, OnOk, IfErr, MatchOption};

use crate::delta::Delta;
use crate::entry::Entry;
use crate::fault::DeltaFault;
use crate::logs::Logs;

impl Logs {
    ghost use Rattle.sct_delta.specs.declared.fault.DeltaFault.TheVariants as fault;
    ghost use Rattle.sct_delta.specs.Logs.{log_in};
    ghost use Rattle.sct_delta.specs.Refusals.{is_fork, outside_refusal, ahead_refusal, gap_refusal, fork_refusal, first_refusal};

    fn outside(&self, delta: &[Entry]) -> Option<DeltaFault>
        ensures { result ≡ outside_refusal self.now.group delta.now }
    {
        match delta.iter().find(|entry| !self.has_site(entry.origin)) {
            Some(_) => Some(DeltaFault::BadSite),
            None => None,
        }
    }

    fn ahead(&self, own: u16, delta: &[Entry]) -> Option<DeltaFault>
        ensures { result ≡ ahead_refusal own (log_in self.now) delta.now }
    {
        let count = self.count(own);
        match delta
            .iter()
            .find(|entry| entry.origin == own && count < entry.n)
        {
            Some(entry) => Some(DeltaFault::OwnAhead { n: entry.n }),
            None => None,
        }
    }

    fn gap(&self, delta: &[Entry]) -> Option<DeltaFault>
        ensures { result ≡ gap_refusal (log_in self.now) delta.now }
    {
        let mut previous = 0;
        for entry in delta {
            if entry.origin != previous {
                previous = entry.origin;
                let have = self.count(entry.origin);
                if have < entry.n.saturating_sub(1) {
                    return Some(DeltaFault::Gap {
                        origin: entry.origin,
                        have,
                        first: entry.n,
                    });
                }
            }
        }
        None
    }

    // Whether the logs hold another message under the number of an entry.
    fn is_fork(&self, entry: &Entry) -> bool
        ensures { result ≡ is_fork (log_in self.now) entry.now }
    {
        match self.get(entry.origin, entry.n) {
            Some(held) => **held != *entry.message,
            None => false,
        }
    }

    fn fork(&self, delta: &[Entry]) -> Option<DeltaFault>
        ensures { result ≡ fork_refusal (log_in self.now) delta.now }
    {
        match delta.iter().find(|entry| self.is_fork(entry)) {
            Some(entry) => Some(DeltaFault::Fork {
                origin: entry.origin,
                n: entry.n,
            }),
            None => None,
        }
    }

    /// Whether the site `own` accepts a delta. If not, the first of these errors is returned. It does not allocate.
    /// O(entries of the delta).
    /// - `BadSite` (44): the group does not have an origin of the delta;
    /// - `OwnAhead` (43): an entry of the own origin is above the own count;
    /// - `Gap` (41): the least number of an origin is past the next one;
    /// - `Fork` (42): a number of the delta is held with another message.
    #[tactic(auto, unfolding(crate::specs::Refusals::first_refusal))]
    pub fn fits(&self, own: u16, delta: &Delta) -> Result<(), DeltaFault>
        ensures first { MatchOption (first_refusal own self.now.group (log_in self.now) delta.now)
            (result ≡ Ok tt) (λ refusal. result ≡ Err refusal) }
        ensures ok { OnOk result (first_refusal own self.now.group (log_in self.now) delta.now ≡ None) }
        ensures no_memory { IfErr result (λ refusal. refusal ≢ fault.Memory) }
    {
        let entries = delta.entries();
        if let Some(refusal) = self.outside(entries) {
            return Err(refusal);
        }
        if let Some(refusal) = self.ahead(own, entries) {
            return Err(refusal);
        }
        if let Some(refusal) = self.gap(entries) {
            return Err(refusal);
        }
        match self.fork(entries) {
            Some(refusal) => Err(refusal),
            None => Ok(()),
        }
    }
}
