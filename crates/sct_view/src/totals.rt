//! The totals of a bank.

ghost use Rattle.std.specs.Prelude.{◌≡◌};
ghost use Rattle.sct_view.specs.Kept.{IsInRange, IsUpTo};
ghost use Rattle.sct_view.specs.Totals.{nothing, plus};

/// What a bank sent and received in instant credit transfers. Amounts are in cents.
#[derive(Clone, Copy, Debug, PartialEq, Eq)]
pub struct Totals {
    /// Accepted transfers that have it as the originator bank.
    pub sent: u64,
    /// Cents of the instructions of these transfers.
    pub sent_cents: u128,
    /// Cents returned to it for transfers that it sent, after recalls.
    pub returned_in: u128,
    /// Rejected transfers that have it as the originator bank.
    pub rejected: u64,
    /// Transfers that have it as the originator bank, were instructed and wait for a confirmation, investigated or not.
    pub waiting: u64,
    /// Transfers that have it as the originator bank and have messages but no instruction.
    pub missing: u64,
    /// Transfers that have it as the originator bank and whose messages contradict each other.
    pub contradicted: u64,
    /// Accepted transfers that have it as the beneficiary bank.
    pub received: u64,
    /// Cents of the instructions of the transfers received.
    pub received_cents: u128,
    /// Cents that it returned for transfers that it received, after recalls.
    pub returned_out: u128,
}

impl Totals {
    ghost use Rattle.sct_view.specs.Listed.{is_something};

    /// All numbers 0.
    pub fn nothing() -> Self
        ensures { result ≡ nothing }
    {
        Totals {
            sent: 0,
            sent_cents: 0,
            returned_in: 0,
            rejected: 0,
            waiting: 0,
            missing: 0,
            contradicted: 0,
            received: 0,
            received_cents: 0,
            returned_out: 0,
        }
    }

    /// Adds a share.
    pub(crate) fn put(&mut self, share: &Totals)
        requires { IsInRange (plus self.old share.now) }
        ensures { self.new ≡ plus self.old share.now }
    {
        self.sent += share.sent;
        self.sent_cents += share.sent_cents;
        self.returned_in += share.returned_in;
        self.rejected += share.rejected;
        self.waiting += share.waiting;
        self.missing += share.missing;
        self.contradicted += share.contradicted;
        self.received += share.received;
        self.received_cents += share.received_cents;
        self.returned_out += share.returned_out;
    }

    /// Subtracts a share.
    pub(crate) fn take(&mut self, share: &Totals)
        requires { IsUpTo share.now self.old }
        ensures { plus self.new share.now ≡ self.old }
    {
        self.sent -= share.sent;
        self.sent_cents -= share.sent_cents;
        self.returned_in -= share.returned_in;
        self.rejected -= share.rejected;
        self.waiting -= share.waiting;
        self.missing -= share.missing;
        self.contradicted -= share.contradicted;
        self.received -= share.received;
        self.received_cents -= share.received_cents;
        self.returned_out -= share.returned_out;
    }

    /// Whether some number is not 0.
    pub(crate) fn is_something(&self) -> bool
        ensures { result ≡ is_something self.now }
    {
        let is_nothing = self.sent == 0
            && self.sent_cents == 0
            && self.returned_in == 0
            && self.rejected == 0
            && self.waiting == 0
            && self.missing == 0
            && self.contradicted == 0
            && self.received == 0
            && self.received_cents == 0
            && self.returned_out == 0;
        !is_nothing
    }
}
