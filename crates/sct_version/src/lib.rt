//! The version of the program and of the library.
#![tactic(auto)]

ghost use Rattle.std.specs.Prelude.{◌≡◌};
ghost use Rattle.sct_version.specs.Numbers.{version_number};

/// The version, as `--version` prints it.
pub const VERSION: &str = "0.3.0";

/// The version as a number: 1000000 for each major, 1000 for each minor, 1 for each patch version.
pub fn version_number() -> u32
    ensures { result ≡ version_number VERSION.now }
{
    3000
}
