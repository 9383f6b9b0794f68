//! Files that are opened by their paths.
ghost use Rattle.std.specs.Prelude.{◌≡◌, ℕ, List, Option, None, Some, IfOk, IfSome};

use crate::source::Failed;
use std::{fs, io, rt};

/// A host that opens files by their paths.
pub trait Files {
    /// An open file.
    type File: io::Read + Drop;

    /// The bytes of the file at a path, if they are known.
    ghost gives: { Self → List ℕ → Option (List ℕ) };

    /// Opens the file at a path. All of its bytes are still to be read. Error: `Failed` if the file cannot be opened.
    fn open(&self, path: &str) -> Result<Self::File, Failed>
        ensures { IfOk result (λ file. IfSome (gives self.now path.now)
            (λ bytes. Self.File.remaining file ≡ Some bytes)) };
}

/// The files of a host. Their bytes are not known, since another program may write a file at any time.
#[derive(Drop)]
pub struct HostFiles<'a, R: rt::Files> {
    host: &'a R,
}

impl<'a, R: rt::Files> HostFiles<'a, R> {
    /// The files of this host.
    pub fn new(host: &'a R) -> Self
        ensures { result.host.now ≡ host.now }
    {
        HostFiles { host }
    }
}

impl<R: rt::Files> Files for HostFiles<'_, R> {
    type File = R::File;

    ghost gives = { λ _ _. None };

    fn open(&self, path: &str) -> Result<R::File, Failed> {
        match fs::open(self.host, path) {
            Ok(file) => Ok(file),
            Err(_) => Err(Failed),
        }
    }
}
