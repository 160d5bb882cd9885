//! The error of an account or a report.
ghost use Rattle.std.specs.Prelude.{◌≡◌};

use job_facts::{Refusal, StoreFault};
use std::alloc::AllocError;
use text_io::WriteFailed;

/// The reason why an account or a report isn't returned.
#[derive(Clone, Copy, Debug, PartialEq, Eq)]
pub enum AccountFault {
    /// The batch or product doesn't exist.
    Refused(Refusal),
    /// The store returned a fault, or an allocation failed.
    Store(StoreFault),
    /// The writer failed or took no bytes.
    Write,
}

impl From<StoreFault> for AccountFault {
    ghost use Rattle.reports.specs.declared.fault.AccountFault.TheVariants.{Store};

    ghost from_gives = { λ cause fault. fault ≡ Store cause };

    fn from(cause: StoreFault) -> AccountFault {
        AccountFault::Store(cause)
    }
}

impl From<AllocError> for AccountFault {
    ghost use Rattle.reports.specs.declared.fault.AccountFault.TheVariants.{Store};
    ghost use Rattle.job_facts.specs.declared.store.StoreFault.TheVariants.{Memory};

    ghost from_gives = { λ _ fault. fault ≡ Store Memory };

    fn from(_error: AllocError) -> AccountFault {
        AccountFault::Store(StoreFault::Memory)
    }
}

impl From<WriteFailed> for AccountFault {
    ghost use Rattle.reports.specs.declared.fault.AccountFault.TheVariants.{Write};

    ghost from_gives = { λ _ fault. fault ≡ Write };

    fn from(_error: WriteFailed) -> AccountFault {
        AccountFault::Write
    }
}
