//! The faults that end the serving of a site, as faults of the program.
ghost use Rattle.std.specs.Prelude.{◌≡◌};
ghost use Rattle.sct_engine.specs.Faults.{fault_of_keeper, fault_of_serve};

use sct_commands::ProgramFault;
use sct_keeper::KeeperError;
use sct_serve::ServeFault;

/// The fault of the program, by the error of a site with a journal.
fn fault_of_keeper(error: KeeperError) -> ProgramFault
    ensures { result ≡ fault_of_keeper error }
{
    match error {
        KeeperError::Memory => ProgramFault::Memory,
        KeeperError::BadSite => ProgramFault::Usage,
        KeeperError::Journal(error) => ProgramFault::from(error),
    }
}

/// The fault of the program, by the fault that ended the serving of a site.
pub fn fault_of_serve(fault: ServeFault) -> ProgramFault
    ensures { result ≡ fault_of_serve fault }
{
    match fault {
        ServeFault::Memory => ProgramFault::Memory,
        ServeFault::TooLong => ProgramFault::TooLong,
        ServeFault::Read => ProgramFault::Read,
        ServeFault::Write => ProgramFault::Write,
        ServeFault::Keeper(error) => fault_of_keeper(error),
    }
}
