//! A faulty device, and the fault that is planned for it.
ghost use Rattle.std.specs.Prelude.{◌≡◌, IfErr, OnErr, OnOk, Some, false, true};
ghost use Rattle.job_facts.specs.declared.store.StoreFault.TheVariants.{Device as DeviceFault};
ghost use Rattle.job_facts.specs.declared.store.StoreFault.TheVariants.{Full as FullFault};
ghost use Rattle.job_facts.specs.Store.{one_more};
ghost use Rattle.faulty_store.specs.declared.device.Fault.TheVariants.{Failed as FailedFault};
ghost use Rattle.faulty_store.specs.Faulty.{ends, left, struck};

use job_facts::{Failed, StoreFault};

/// A fault of the device.
#[derive(Clone, Copy)]
pub enum Fault {
    /// A failure in a step. It shuts the store.
    Failed,
    /// A failure after a write has reached the device. It shuts the store.
    FailedAfterWrite,
    /// A full device. The store isn't shut.
    Full,
    /// The loss of all data without an error.
    Lies,
}

/// A planned fault, which strikes once.
#[derive(Clone, Copy)]
pub struct Plan {
    /// The number of steps before the fault is due.
    pub turns: u64,
    /// The fault.
    pub fault: Fault,
}

/// A faulty device. At the maximum of `u64` a count no longer increases.
#[derive(Clone, Copy)]
pub struct Device {
    /// The fault that is planned next, if any.
    pub plan: Option<Plan>,
    /// The number of `Device` faults that were returned.
    pub failed: u64,
    /// The number of `Full` faults that were returned.
    pub full: u64,
    /// The number of times that the device lost all data without an error.
    pub lies: u64,
    /// `true` if a fault has shut the store. Every step then fails.
    pub is_shut: bool,
}

impl Device {
    /// Takes one step, and returns the fault that strikes in it, if any. `FailedAfterWrite` isn't
    /// returned, because it waits for the end of a write. A device that is shut returns `Failed` in
    /// every step.
    pub(crate) fn strike(&mut self) -> Option<Fault>
        ensures plan { self.new ≡ record self.old { plan = self.new.plan } }
        ensures shut { self.old.is_shut ≡ true → result ≡ Some FailedFault }
        ensures planned { self.old.is_shut ≡ false → result ≡ struck self.old.plan }
        ensures left { self.old.is_shut ≡ false → self.new.plan ≡ left self.old.plan }
    {
        if self.is_shut {
            return Some(Fault::Failed);
        }
        let plan = self.plan;
        match plan {
            None => None,
            Some(
                Plan {
                    turns: 0,
                    fault: Fault::FailedAfterWrite,
                },
            ) => None,
            Some(Plan { turns: 0, fault }) => {
                self.plan = None;
                Some(fault)
            }
            Some(Plan { turns, fault }) => {
                self.plan = Some(Plan {
                    turns: turns - 1,
                    fault,
                });
                None
            }
        }
    }

    /// Counts a failure of the device, shuts the store, and returns `Device`.
    pub(crate) fn fail(&mut self) -> StoreFault
        ensures fault { result ≡ DeviceFault }
        ensures counted { self.new
            ≡ record self.old { failed = one_more self.old.failed; is_shut = true } }
    {
        self.failed = self.failed.saturating_add(1);
        self.is_shut = true;
        StoreFault::Device
    }

    /// Counts a full device and returns `Full`.
    pub(crate) fn refuse(&mut self) -> StoreFault
        ensures fault { result ≡ FullFault }
        ensures counted { self.new ≡ record self.old { full = one_more self.old.full } }
    {
        self.full = self.full.saturating_add(1);
        StoreFault::Full
    }

    /// Ends a write that has reached the device. Returns `Device` and shuts the store if the
    /// planned fault strikes now. The write isn't undone.
    pub(crate) fn end_write(&mut self) -> Result<(), Failed<StoreFault>>
        ensures ok { OnOk result ((self.new ≡ self.old) × (ends self.old.plan ≡ false)) }
        ensures err { IfErr result (λ failed. (failed.fault ≡ DeviceFault)
            × (ends self.old.plan ≡ true)) }
        ensures undone { IfErr result (λ failed. failed.undone ≡ false) }
        ensures shut { OnErr result (self.new ≡ record self.old {
          plan = self.new.plan;
          failed = one_more self.old.failed;
          is_shut = true;
        }) }
    {
        match self.plan {
            Some(
                Plan {
                    turns: 0,
                    fault: Fault::FailedAfterWrite,
                },
            ) => {
                self.plan = None;
                let fault = self.fail();
                Err(Failed {
                    fault,
                    undone: false,
                })
            }
            _ => Ok(()),
        }
    }
}
