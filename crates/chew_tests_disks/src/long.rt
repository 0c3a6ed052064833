//! A slot's greatest length.

ghost use Rattle.chew_spec_disk.specs.Disk.{untold};
ghost use Rattle.std.specs.Prelude.{false};

use chew_outside::{Disk, Failed};
use chew_slot_samples::refusal;
use chew_slots::SlotFault;
use std::test::Fail;

// A disk whose slots have this length. All its other calls fail.
#[derive(Drop)]
struct Long {
    len: u64,
    faults: u64,
}

impl Long {
    fn of(len: u64) -> Long {
        Long { len, faults: 0 }
    }
}

impl Disk for Long {
    ghost told = { λ disk. false };

    ghost state = { λ disk. untold };

    ghost faults = { λ disk. disk.faults };

    fn length(&mut self, _slot: u8) -> Result<u64, Failed> {
        Ok(self.len)
    }

    fn read_at(&mut self, _slot: u8, _at: u64, _into: &mut [u8]) -> Result<usize, Failed> {
        self.faults = self.faults.saturating_add(1);
        Err(Failed)
    }

    fn write_at(&mut self, _slot: u8, _at: u64, _bytes: &[u8]) -> Result<(), Failed> {
        self.faults = self.faults.saturating_add(1);
        Err(Failed)
    }

    fn sync(&mut self, _slot: u8) -> Result<(), Failed> {
        self.faults = self.faults.saturating_add(1);
        Err(Failed)
    }
}

// One byte more is refused by the length alone; a slot of the greatest length is read.
#[test]
fn a_slot_has_at_most_2_to_the_28_bytes(rt: HostRuntime) -> Result<(), Fail> {
    let alloc = rt.alloc();
    let cases = [
        (268_435_456u64, SlotFault::DiskFault),
        (
            268_435_457,
            SlotFault::TooLarge {
                slot: 0,
                len: 268_435_457,
            },
        ),
        (
            u64::MAX,
            SlotFault::TooLarge {
                slot: 0,
                len: u64::MAX,
            },
        ),
    ];
    for (len, fault) in cases {
        assert_eq!(rt; refusal(alloc, &mut Long::of(len)), Some(fault));
    }
    Ok(())
}
