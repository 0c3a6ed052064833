ghost use Rattle.std.specs.Prelude.{◌≡◌, ℕ, ◌<◌, ◌≤◌, Bool, true, false, length, is_err, IfOk};
ghost use Rattle.chew_spec_outside.specs.Faults.{HasCause};
ghost use Rattle.chew_spec_outside.specs.Memory.{counted};
ghost use Rattle.chew_spec_disk.specs.Disk.{DiskState, IsDisk, untold};

use crate::interrupts::TRIES;
use crate::{Disk, Failed};
use std::fs::File;
use std::io::{self, ErrorKind};
use std::marker::Model;
use std::os::unix::fs::FileExt;

/// A disk over two files, which are open for reading and writing. What they hold is not told: nothing is
/// known of the outside.
#[derive(Drop)]
pub struct FolderDisk {
    zero: File,
    one: File,
    faults: u64,
}

impl Model for FolderDisk {
    ghost use Rattle.std.specs.Prelude.{ℕ};

    ghost Value = { ℕ };

    ghost view = { λ a. a.faults };
}

impl FolderDisk {
    /// Over these files. In clauses the disk is its count of faults.
    pub fn of(zero: File, one: File) -> FolderDisk
        ensures { result ≡ 0 }
    {
        FolderDisk {
            zero,
            one,
            faults: 0,
        }
    }

    fn file(&self, slot: u8) -> &File {
        match slot {
            0 => &self.zero,
            _ => &self.one,
        }
    }

    // What a call answers, whose fault is counted.
    fn counted<T: Drop>(&mut self, done: io::Result<T>) -> Result<T, Failed>
        ensures cause { HasCause self.old self.new (is_err result) }
        ensures same { IfOk result (λ x. done ≡ Ok x) }
    {
        match done {
            Ok(value) => Ok(value),
            Err(_) => {
                self.faults = self.faults.saturating_add(1);
                Err(Failed)
            }
        }
    }
}

impl Disk for FolderDisk {
    ghost told = { λ disk. false };

    ghost state = { λ disk. untold };

    ghost faults = { λ disk. disk };

    fn length(&mut self, slot: u8) -> Result<u64, Failed> {
        let length = length_of(self.file(slot));
        self.counted(length)
    }

    fn read_at(&mut self, slot: u8, at: u64, into: &mut [u8]) -> Result<usize, Failed> {
        let count = read_fully(self.file(slot), at, into);
        self.counted(count)
    }

    fn write_at(&mut self, slot: u8, at: u64, bytes: &[u8]) -> Result<(), Failed> {
        let done = self.file(slot).write_all_at(bytes, at);
        self.counted(done)
    }

    fn sync(&mut self, slot: u8) -> Result<(), Failed> {
        let done = self.file(slot).sync_all();
        self.counted(done)
    }
}

fn length_of(file: &File) -> io::Result<u64> {
    Ok(file.metadata()?.len())
}

// Reads from a place on until the buffer is full or the file ends.
fn read_fully(file: &File, at: u64, into: &mut [u8]) -> io::Result<usize>
    ensures fits { IfOk result (λ n. n ≤ length into.old) }
{
    let mut done = 0;
    'filling: while done < into.len() {
        let from = at.saturating_add(done as u64);
        match read_uninterrupted(file, from, &mut into[done..])? {
            0 => return Ok(done),
            count => done += count,
        }
    }
    Ok(done)
}

// One read, made again where a signal interrupts it.
fn read_uninterrupted(file: &File, at: u64, into: &mut [u8]) -> io::Result<usize>
    ensures fits { IfOk result (λ n. n ≤ length into.old) }
{
    for _ in 0..TRIES {
        match file.read_at(into, at) {
            Err(fault) if fault.kind() == ErrorKind::Interrupted => {}
            answer => return answer,
        }
    }
    Err(io::Error::from(ErrorKind::Interrupted))
}
