ghost use Rattle.std.specs.Prelude.{◌≡◌};
ghost use Rattle.std.specs.IoError.{error_kind};
ghost use Rattle.hub_faults.specs.Statuses.{status_of, fault_of_arguments, fault_of_number, fault_of_run, fault_of_server, fault_of_file, fault_of_journal, fault_of_journaled_run, fault_of_carry, fault_of_keys};
ghost use Rattle.hub_faults.specs.declared.fault.Fault.TheVariants as faults;

use carried_hub::CarryFault;
use disk_file::OpenFault as FileFault;
use hub_replay::RunFault;
use journaled_hub::{JournaledRunFault, OpenFault};
use railway_keys::KeyFileFault;
use server_faults::ServerFault;
use std::alloc::AllocError;
use std::io;
use std::io::ErrorKind;
use taf_codes::Memory;
use thiserror::Error;
use wagon_number::NumberFault;

/// Why a command did not do what it is for.
#[derive(Clone, Copy, Debug, PartialEq, Eq, Error)]
pub enum Fault {
    #[error("fault: words")]
    Arguments,
    #[error("fault 1: not twelve digits")]
    NotTwelveDigits,
    #[error("fault 2: bad check digit")]
    BadCheckDigit,
    #[error("fault: read")]
    Read,
    #[error("fault: write")]
    Write,
    #[error("fault: no end")]
    NoEnd,
    #[error("fault: memory")]
    Memory,
    #[error("fault: socket")]
    Socket,
    #[error("fault: thread")]
    Thread,
    #[error("fault: not settled")]
    NotSettled,
    /// A call of the journal's file failed.
    #[error("fault: journal file")]
    JournalFile,
    /// Another process has the journal.
    #[error("fault: journal busy")]
    JournalBusy,
    /// The journal's file is none, or has what no crash leaves; or it could not be carried over.
    #[error("fault: journal refused")]
    JournalRefused,
    /// The file of the keys could not be read.
    #[error("fault: keys file")]
    KeysFile,
    /// The file of the keys has what is none.
    #[error("fault: keys refused")]
    KeysRefused,
}

impl Fault {
    /// Why the arguments of the command line were not read.
    pub fn of_arguments(error: io::Error) -> Fault
        ensures { result ≡ fault_of_arguments (error_kind error) }
    {
        match error.kind() {
            ErrorKind::OutOfMemory => Fault::Memory,
            _ => Fault::Arguments,
        }
    }

    /// The status that the program ends with: 1 for a text that is no number, 2 where the arguments could not be read or the keys were
    /// refused, 3 where reading or writing failed, 4 where memory was refused, 5 where a socket or a thread could not be had, 6 where the
    /// calls of a shift or a service did not settle, 7 where a call of the journal's file failed, 8 where the journal is busy or was refused.
    pub fn status(self) -> u8
        ensures { result ≡ status_of self }
    {
        match self {
            Fault::NotTwelveDigits | Fault::BadCheckDigit => 1,
            Fault::Arguments | Fault::KeysRefused => 2,
            Fault::Read | Fault::Write | Fault::NoEnd | Fault::KeysFile => 3,
            Fault::Memory => 4,
            Fault::Socket | Fault::Thread => 5,
            Fault::NotSettled => 6,
            Fault::JournalFile => 7,
            Fault::JournalBusy | Fault::JournalRefused => 8,
        }
    }
}

impl From<Memory> for Fault {
    ghost from_gives = { λ _ fault. fault ≡ faults.Memory };

    fn from(_refused: Memory) -> Fault {
        Fault::Memory
    }
}

impl From<AllocError> for Fault {
    ghost from_gives = { λ _ fault. fault ≡ faults.Memory };

    fn from(_refused: AllocError) -> Fault {
        Fault::Memory
    }
}

impl From<NumberFault> for Fault {
    ghost from_gives = { λ number fault. fault ≡ fault_of_number number };

    fn from(fault: NumberFault) -> Fault {
        match fault {
            NumberFault::NotTwelveDigits => Fault::NotTwelveDigits,
            NumberFault::BadCheckDigit => Fault::BadCheckDigit,
        }
    }
}

impl From<RunFault> for Fault {
    ghost from_gives = { λ run fault. fault ≡ fault_of_run run };

    fn from(fault: RunFault) -> Fault {
        match fault {
            RunFault::Read => Fault::Read,
            RunFault::Write => Fault::Write,
            RunFault::NoEnd => Fault::NoEnd,
            RunFault::Memory => Fault::Memory,
        }
    }
}

impl From<ServerFault> for Fault {
    ghost from_gives = { λ server fault. fault ≡ fault_of_server server };

    fn from(fault: ServerFault) -> Fault {
        match fault {
            ServerFault::Thread => Fault::Thread,
            ServerFault::Memory => Fault::Memory,
            ServerFault::NotSettled(_) => Fault::NotSettled,
            ServerFault::Journal => Fault::JournalFile,
        }
    }
}

impl From<FileFault> for Fault {
    ghost from_gives = { λ file fault. fault ≡ fault_of_file file };

    fn from(fault: FileFault) -> Fault {
        match fault {
            FileFault::File => Fault::JournalFile,
            FileFault::Busy => Fault::JournalBusy,
            FileFault::NotRegular => Fault::JournalRefused,
        }
    }
}

impl From<OpenFault> for Fault {
    ghost from_gives = { λ journal fault. fault ≡ fault_of_journal journal };

    fn from(fault: OpenFault) -> Fault {
        match fault {
            OpenFault::Memory => Fault::Memory,
            OpenFault::Failed => Fault::JournalFile,
            OpenFault::Damaged(_) | OpenFault::NoCall(_) => Fault::JournalRefused,
            OpenFault::OtherSum(_) | OpenFault::Full => Fault::JournalRefused,
        }
    }
}

impl From<JournaledRunFault> for Fault {
    ghost from_gives = { λ run fault. fault ≡ fault_of_journaled_run run };

    fn from(fault: JournaledRunFault) -> Fault {
        match fault {
            JournaledRunFault::Run(fault) => Fault::from(fault),
            JournaledRunFault::Journal => Fault::JournalFile,
        }
    }
}

impl From<CarryFault> for Fault {
    ghost from_gives = { λ carry fault. fault ≡ fault_of_carry carry };

    fn from(fault: CarryFault) -> Fault {
        match fault {
            CarryFault::Memory => Fault::Memory,
            CarryFault::Failed => Fault::JournalFile,
            CarryFault::Full | CarryFault::NotClosed | CarryFault::OtherItems => {
                Fault::JournalRefused
            }
        }
    }
}

impl From<KeyFileFault> for Fault {
    ghost from_gives = { λ keys fault. fault ≡ fault_of_keys keys };

    fn from(fault: KeyFileFault) -> Fault {
        match fault {
            KeyFileFault::Line(..) => Fault::KeysRefused,
            KeyFileFault::Memory => Fault::Memory,
        }
    }
}
