//! The digits that are driven so far.

ghost use Rattle.std.specs.Prelude.{◌≡◌, [], OnErr, OnOk};
ghost use Rattle.v_process.specs.Drive.Digits.{IsInVector, Keeps, KeepsMore, KeepsSame, TellsDriven, drive_of};
ghost use Rattle.v_process.specs.Drive.Masks.{mask_at};

use crate::drive::Drive;
use gpi::SigId;
use port_io::NoMemory;
use std::alloc::Global;
use std::collections::HashMap;

/// The digits of nets that are driven so far in one instance.
#[derive(Drop)]
pub struct DrivenDigits {
    /// The driven digits of each net that has some: bit i stands for digit i.
    masks: HashMap<u32, u128>,
}

impl DrivenDigits {
    /// No digit is driven.
    pub fn none(alloc: Global) -> DrivenDigits
        ensures { Keeps result [] }
    {
        DrivenDigits {
            masks: HashMap::new(alloc),
        }
    }

    /// The driven digits of a net.
    fn mask(&self, signal: SigId) -> u128
        ensures { result ≡ mask_at self.now signal.0 }
    {
        self.masks.get(&signal.0).copied().unwrap_or(0)
    }

    /// Whether one of these digits is driven already.
    pub fn has(&self, drive: Drive) -> bool
        requires { IsInVector (drive_of drive) }
        ensures { TellsDriven self.now (drive_of drive) result }
    {
        self.mask(drive.signal) & drive.mask() != 0
    }

    /// From now on these digits are driven too. After `NoMemory` those that were are.
    pub fn add(&mut self, drive: Drive) -> Result<(), NoMemory>
        requires { IsInVector (drive_of drive) }
        ensures ok { OnOk result (KeepsMore self.old (drive_of drive) self.new) }
        ensures err { OnErr result (KeepsSame self.old self.new) }
    {
        let mask = self.mask(drive.signal) | drive.mask();
        self.masks.insert(drive.signal.0, mask)?;
        Ok(())
    }
}
