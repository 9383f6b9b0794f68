//! A snapshot may go to another thread.

ghost use Rattle.std.specs.Prelude.{◌≡◌};

use crate::snapshot::Snapshot;

// A value as it goes to another thread.
fn sent<T: Send>(value: T) -> T
    ensures { result ≡ value }
{
    value
}

impl Snapshot {
    /// The snapshot as it goes to another thread: it is `Send`.
    pub fn sent(self) -> Snapshot
        ensures { result ≡ self }
    {
        sent(self)
    }
}
