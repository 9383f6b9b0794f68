//! The numbers of sites.
ghost use Rattle.std.specs.Prelude.{◌≡◌};
ghost use Rattle.sct_delta.specs.Sites.{is_site, is_site_of_form_1};

/// The greatest number that a site may have.
pub const MOST_SITES: u16 = 1024;

/// Whether a site may have this number: 1 to 1024.
pub fn is_site(origin: u16) -> bool
    ensures { result ≡ is_site origin }
{
    1 <= origin && origin <= MOST_SITES
}

// The greatest number that a site may have in form 1 of the delta text.
const MOST_SITES_OF_FORM_1: u16 = 64;

/// Whether form 1 of the delta text has a site of this number: 1 to 64.
pub(crate) fn is_site_of_form_1(origin: u16) -> bool
    ensures { result ≡ is_site_of_form_1 origin }
{
    1 <= origin && origin <= MOST_SITES_OF_FORM_1
}
