//! The address of a site, as a program in another language keeps it.

ghost use Rattle.std.specs.Prelude.{◌≡◌, IsTrue, Option, Some, None};
ghost use Rattle.std.specs.Borrow.{sem};
ghost use Rattle.std.specs.Option.{is_some};
ghost use Rattle.sct_place.specs.Handles.{held_coded};
ghost use Rattle.sct_place.specs.declared.kept.KeptSite.{KeptSite};

use crate::kept::KeptSite;
use std::alloc::Global;
use std::marker::Model;
use std::ptr::null_mut;

/// The address of a site, or of none. To drop a handle frees nothing, so only a handle of none is dropped.
#[repr(C)]
#[derive(Drop)]
pub struct Handle {
    at: *mut u8,
    alloc: Global,
    pub ghost held: { Option KeptSite } by { held_coded },
}

impl Model for Handle {
    ghost use Rattle.sct_place.specs.Handles.{held_owns};

    ghost also_owns = { λ h. held_owns h.alloc h.at h.held };
}

impl Handle {
    ghost use Rattle.sct_place.specs.Lending.{LendsSite};

    /// The handle of none.
    pub(crate) fn closed(alloc: Global) -> Handle
        ensures { result.held ≡ None }
    {
        Handle {
            at: null_mut(),
            alloc,
        }
    }

    /// The handle of a site.
    pub(crate) fn of(site: Box<KeptSite>) -> Handle
        ensures { result.held ≡ Some site.value }
    {
        let (at, alloc) = Box::into_raw_with_allocator(site);
        Handle {
            at: at as *mut u8,
            alloc,
        }
    }

    /// The site of a handle, which keeps it.
    pub(crate) fn site_mut(&mut self) -> &mut KeptSite
        requires { IsTrue (is_some self.old.held) }
        ensures* writes_back { sem 𝓛 (LendsSite self.entry result) }
        ensures value { Some result.now ≡ self.old.held }
    {
        unsafe { &mut *(self.at as *mut KeptSite) }
    }

    /// The site of a handle.
    pub(crate) fn into_box(self) -> Box<KeptSite>
        requires { IsTrue (is_some self.held) }
        ensures { Some result.value ≡ self.held }
    {
        let Handle { at, alloc } = self;
        unsafe { Box::from_raw(alloc, at as *mut KeptSite) }
    }
}

// The proof shows that the site behind the address, and the right to free it, say the same to every thread.
unsafe impl Send for Handle {}
