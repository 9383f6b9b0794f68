//! The messages on a transfer, as text.

ghost use Rattle.std.specs.Prelude.{◌≡◌, IfOk};
ghost use Rattle.sct_set.specs.Archive.{archive_text_of};
ghost use Rattle.sct_view.specs.Answers.{those_on};

use crate::view::View;
use sct_case::CaseFault;
use sct_message::TransferKey;
use sct_set::Archive;
use std::alloc::AllocError;

impl View {
    // The archive text of the messages that are on a transfer.
    fn archive_text_on(&self, transfer: &TransferKey) -> Result<Vec<u8>, AllocError>
        ensures { IfOk result (λ text. text.items ≡ archive_text_of (those_on self.now transfer.now)) }
    {
        let mut archive = Archive::new(self.alloc);
        archive.add_all(&self.gather(transfer, &[])?)?;
        Ok(archive.text()?)
    }

    /// The messages that are on a transfer, clean or contradicted: their lines of the archive text, in bytes.
    /// Error: `Memory` (39). O(n log n) in the messages on the transfer, however many messages the view holds.
    pub fn messages_text(&self, transfer: &TransferKey) -> Result<Vec<u8>, CaseFault>
        ensures { IfOk result (λ text. text.items ≡ archive_text_of (those_on self.now transfer.now)) }
    {
        Ok(self.archive_text_on(transfer)?)
    }
}
