//! Why a job did not go through.

ghost use Rattle.std.specs.Prelude.{◌≡◌};
ghost use Rattle.cli_core.specs.LineFaults.{of_name, of_master, of_zone, of_item, of_policy, of_groups, of_store};
ghost use Rattle.cli_core.specs.declared.line_fault.LineFault.TheVariants.{NoMemory};
ghost use Rattle.cli_core.specs.declared.line_fault.JobFault.TheVariants as job;

use crate::refusal::Refusal;
use dns_master::{DeviceFailed, MasterFault};
use dns_names::NameFault;
use grant_policy::PolicyFault;
use policy_build::BuildFault;
use refusals::words;
use std::alloc::AllocError;
use std::error::Error;
use std::fmt::{self, Display, Formatter, Write};
use store_faults::StoreFault;
use update_lines::ItemsFault;
use zone_core::ZoneFault;

/// Why a job has no answer. Each is reported by a line in place of the answer.
#[derive(Clone, Copy, Debug)]
pub enum LineFault {
    /// The words or the input are refused.
    Refused(Refusal),
    /// The reader failed.
    ReadFailed,
    /// Memory ran out. This says nothing of the words or the input.
    NoMemory,
}

/// Why a job did not go through.
#[derive(Clone, Copy, Debug)]
pub enum JobFault {
    /// A line told why it has no answer.
    Reported(LineFault),
    /// The writer failed, and a beginning of what was to be written went out.
    WriteFailed,
}

/// What is wrong, in words.
impl Display for LineFault {
    fn fmt<W: Write>(&self, f: &mut Formatter<W>) -> fmt::Result {
        match self {
            LineFault::Refused(refusal) => write!(f, "{refusal}"),
            LineFault::ReadFailed => f.write_str(words(93)),
            LineFault::NoMemory => f.write_str(words(99)),
        }
    }
}

impl Error for LineFault {}

/// What is wrong, in words.
impl Display for JobFault {
    fn fmt<W: Write>(&self, f: &mut Formatter<W>) -> fmt::Result {
        match self {
            JobFault::Reported(fault) => write!(f, "{fault}"),
            JobFault::WriteFailed => f.write_str("the output cannot be written"),
        }
    }
}

impl Error for JobFault {}

/// The line of a failed read, which is told without memory.
pub const READ_FAILED_LINE: &str = "refused 93\n";

/// The line of out of memory, which is told without memory.
pub const NO_MEMORY_LINE: &str = "refused 99\n";

impl From<NameFault> for LineFault {
    ghost from_gives = { λ f e. e ≡ of_name f };

    fn from(fault: NameFault) -> LineFault {
        match fault {
            NameFault::NoMemory => LineFault::NoMemory,
            fault => LineFault::Refused(Refusal::Name(fault)),
        }
    }
}

impl From<MasterFault> for LineFault {
    ghost from_gives = { λ f e. e ≡ of_master f };

    fn from(fault: MasterFault) -> LineFault {
        match fault {
            MasterFault::NoMemory => LineFault::NoMemory,
            MasterFault::TooLarge => LineFault::Refused(Refusal::TooLarge),
            fault => LineFault::Refused(Refusal::Master(fault)),
        }
    }
}

impl From<ZoneFault> for LineFault {
    ghost from_gives = { λ f e. e ≡ of_zone f };

    fn from(fault: ZoneFault) -> LineFault {
        match fault {
            ZoneFault::NoMemory => LineFault::NoMemory,
            fault => LineFault::Refused(Refusal::Zone(fault)),
        }
    }
}

impl From<ItemsFault> for LineFault {
    ghost from_gives = { λ f e. e ≡ of_item f };

    fn from(fault: ItemsFault) -> LineFault {
        match fault {
            ItemsFault::NoMemory => LineFault::NoMemory,
            fault => LineFault::Refused(Refusal::Items(fault)),
        }
    }
}

impl From<PolicyFault> for LineFault {
    ghost from_gives = { λ f e. e ≡ of_policy f };

    fn from(fault: PolicyFault) -> LineFault {
        match fault {
            PolicyFault::NoMemory => LineFault::NoMemory,
            fault => LineFault::Refused(Refusal::Policy(fault)),
        }
    }
}

impl From<BuildFault> for LineFault {
    ghost from_gives = { λ f e. e ≡ of_groups f };

    fn from(fault: BuildFault) -> LineFault {
        match fault {
            BuildFault::NoMemory => LineFault::NoMemory,
            fault => LineFault::Refused(Refusal::Groups(fault)),
        }
    }
}

impl From<StoreFault> for LineFault {
    ghost from_gives = { λ f e. e ≡ of_store f };

    fn from(fault: StoreFault) -> LineFault {
        match fault {
            StoreFault::NoMemory => LineFault::NoMemory,
            StoreFault::Zone(fault) => LineFault::from(fault),
            fault => LineFault::Refused(Refusal::Store(fault)),
        }
    }
}

impl From<AllocError> for LineFault {
    ghost from_gives = { λ _ e. e ≡ NoMemory };

    fn from(_e: AllocError) -> LineFault {
        LineFault::NoMemory
    }
}

impl From<DeviceFailed> for JobFault {
    ghost from_gives = { λ _ e. e ≡ job.WriteFailed };

    fn from(_e: DeviceFailed) -> JobFault {
        JobFault::WriteFailed
    }
}
