//! A place in which a program in another language keeps a site.

ghost use Rattle.std.specs.Prelude.{◌≡◌, None, Some, option_map};
ghost use Rattle.std.specs.Borrow.{sem};
ghost use Rattle.std.specs.Option.{is_some, option_copied_mut};
ghost use Rattle.sct_place.specs.Values.{value_of};

use crate::handle::Handle;
use crate::kept::KeptSite;
use std::alloc::Global;
use std::mem::replace;

/// A place for a site, which may be empty: 16 bytes that a program in another language keeps, and whose address it passes.
#[repr(C)]
pub struct Place {
    handle: Handle,
    is_full: bool,
    ghost agrees: { is_full ≡ is_some handle.held },
}

impl Place {
    ghost use Rattle.sct_place.specs.Lending.{LendsKept};

    /// An empty place.
    pub(crate) fn empty(alloc: Global) -> Place
        ensures { result.handle.held ≡ None }
    {
        Place {
            handle: Handle::closed(alloc),
            is_full: false,
        }
    }

    // A place with a site.
    fn of(site: Box<KeptSite>) -> Place
        ensures { result.handle.held ≡ Some site.value }
    {
        Place {
            handle: Handle::of(site),
            is_full: true,
        }
    }

    /// Whether there is a site.
    pub(crate) fn is_full(&self) -> bool
        ensures { result ≡ is_some self.now.handle.held }
    {
        self.is_full
    }

    /// The site, if there is one. The place keeps it.
    pub(crate) fn kept_mut(&mut self) -> Option<&mut KeptSite>
        ensures* writes_back { sem 𝓛 (LendsKept self.entry result) }
        ensures value { option_copied_mut result ≡ self.old.handle.held }
    {
        if self.is_full {
            Some(self.handle.site_mut())
        } else {
            None
        }
    }

    // The site, if there is one.
    fn into_site(self) -> Option<Box<KeptSite>>
        ensures { option_map value_of result ≡ self.handle.held }
    {
        let Place { handle, is_full } = self;
        if is_full {
            Some(handle.into_box())
        } else {
            None
        }
    }

    /// Takes the site out, if there is one.
    pub(crate) fn take_out(&mut self, alloc: Global) -> Option<Box<KeptSite>>
        ensures taken { option_map value_of result ≡ self.old.handle.held }
        ensures left { self.new.handle.held ≡ None }
    {
        replace(self, Place::empty(alloc)).into_site()
    }

    /// Puts a site in.
    pub(crate) fn put_in(&mut self, site: Box<KeptSite>)
        ensures { self.new.handle.held ≡ Some site.value }
    {
        *self = Place::of(site);
    }
}

impl Drop for Place {
    fn drop(self) {
        drop(self.into_site());
    }
}

// A value as it goes to another thread.
fn sent<T: Send>(value: T) -> T
    ensures { result ≡ value }
{
    value
}

impl Place {
    /// The place as it goes to another thread: it is `Send`, also as the address in C.
    pub fn sent(self) -> Place
        ensures { result ≡ self }
    {
        sent(self)
    }
}
