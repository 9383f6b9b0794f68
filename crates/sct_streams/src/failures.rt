//! A count of the failed calls of one stream.
ghost use Rattle.std.specs.Prelude.{◌≡◌, ◌+◌};

use std::marker::Model;
use std::sync::ledger::{Blank, Book, Ledger, Share};

/// How many calls of one stream have failed. In memory it has no bytes, and it cannot overflow.
#[derive(Drop)]
pub struct Failures<L: Ledger> {
    book: Book<L>,
    share: Share<L>,
}

impl<L: Ledger> Model for Failures<L> {
    ghost use Rattle.std.specs.Prelude.{ℕ, ◌<◌};

    ghost Value = { ℕ };

    ghost view = { λ f. f.book.total };

    ghost invariant = { λ f. 0 < f.share.parts };
}

impl<L: Ledger> Failures<L> {
    /// A count of zero.
    pub fn none(blank: Blank) -> Self
        requires name { blank.name ≡ L.name }
        requires parts { blank.parts ≡ L.parts }
        requires one_part { blank.parts ≡ 1 }
        ensures { result ≡ 0 }
    {
        let (book, share) = blank.open::<L>();
        Failures { book, share }
    }

    /// Counts one more failed call.
    pub fn add(&mut self)
        ensures { self.new ≡ self.old + 1 }
    {
        self.book.add(&mut self.share, 1);
    }
}
