//! Messages that are sent to a site in the name of banks.

ghost use Rattle.std.specs.Prelude.{◌≡◌, IfErr, IfOk, OnErr};
ghost use Rattle.sct_delta.specs.Entries.{messages_of};
ghost use Rattle.sct_rights.specs.Listing.{banks_in};
ghost use Rattle.sct_rights.specs.Rights.{verdict};
ghost use Rattle.sct_embed.specs.Sending.{IsTakenAs, IsTakenFor, RefusesFor, RefusesMessageAs};

use crate::embedded_site::EmbeddedSite;
use crate::faults::EmbedFault;
use sct_element::Bic;
use sct_message::Message;
use sct_rights::{Permission, read_banks, verdict};
use sct_site::Took;
use std::alloc::{AllocError, Global};
use std::sync::Arc;

impl EmbeddedSite {
    // Whether a message may be sent in the name of banks.
    fn permission(&mut self, banks: &[Bic], message: &Message) -> Result<Permission, AllocError>
        ensures judged { IfOk result (λ permission. permission
            ≡ verdict banks.now (messages_of self.old.core.arrivals) message.now) }
        ensures same { self.new ≡ self.old }
    {
        self.showing.file_all(self.alloc, self.core.arrivals())?;
        let filed = &self.showing.shelf.by_transfer;
        Ok(verdict(self.core.archive(), filed, banks, message))
    }

    /// Takes the message that one JSON object is a form of, if it may be sent in the name of the banks. The cost is that of the
    /// object, of one addition, and of filing what is new; for an answer also that of the messages on its transfer.
    /// Errors: the first reason why the bytes are a form of no message (31 to 38, 46, 56); `Withheld` (81 to 84) with why the message
    /// may not be sent, or not yet; `Memory` (65).
    pub fn take_as(&mut self, banks: &[Bic], json: &[u8]) -> Result<Took, EmbedFault>
        ensures taken { IfOk result (λ took. IsTakenAs self.old.core banks.now json.now took self.new.core) }
        ensures answer { self.new.answer ≡ self.old.answer }
        ensures watched { self.new.watched ≡ self.old.watched }
        ensures err { IfErr result (RefusesMessageAs self.old.core banks.now json.now) }
        ensures unchanged { OnErr result (self.new ≡ self.old) }
    {
        let message = Arc::new(self.alloc, self.reader.read(json)?).map_err(AllocError::from)?;
        match self.permission(banks, &message)? {
            Permission::Allowed => self.put(message),
            reason => Err(EmbedFault::Withheld(reason)),
        }
    }

    /// The same for the banks that a text lists, such as `BANKDEFF,BANQFRPP`. Error too: `BadArgument` (73) with 1 if it lists none.
    pub fn take_for(&mut self, alloc: Global, banks: &[u8], json: &[u8]) -> Result<Took, EmbedFault>
        ensures taken { IfOk result (λ took. IsTakenFor self.old.core (banks_in banks.now) json.now took self.new.core) }
        ensures answer { self.new.answer ≡ self.old.answer }
        ensures watched { self.new.watched ≡ self.old.watched }
        ensures err { IfErr result (RefusesFor self.old.core (banks_in banks.now) json.now) }
        ensures unchanged { OnErr result (self.new ≡ self.old) }
    {
        let Some(banks) = read_banks(alloc, banks)? else {
            return Err(EmbedFault::BadArgument(1));
        };
        self.take_as(&banks, json)
    }
}
