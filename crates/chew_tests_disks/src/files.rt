//! Checkpoints over real files.

use chew_outside::FolderDisk;
use chew_slot_samples::{Learnt, SaveFault, digest_slot, holds, recovers_to, save};
use chew_slots::recover;
use std::alloc::Global;
use std::fs::{File, OpenOptions};
use std::path::PathBuf;
use std::test::Fail;
use std::{env, fs, process};

// A file of this test alone.
fn path(rt: &HostRuntime, name: &str) -> Result<PathBuf, Fail> {
    let id = process::id(rt.process());
    let mut path = env::temp_dir(rt)?;
    path.push(format!(in rt.alloc(); "chew_tests_disks-{id}-{name}")?.as_str())?;
    Ok(path)
}

fn open(rt: &HostRuntime, path: &PathBuf) -> Result<File, Fail> {
    Ok(
        OpenOptions::new()
            .read(true)
            .write(true)
            .create(true)
            .open(rt, path.as_path())?,
    )
}

fn disk(rt: &HostRuntime, zero: &PathBuf, one: &PathBuf) -> Result<FolderDisk, Fail> {
    Ok(FolderDisk::of(open(rt, zero)?, open(rt, one)?))
}

// Opens the files anew, and whether they recover to the old map; then the new one is saved and the files are closed.
fn saved_after(
    rt: &HostRuntime,
    zero: &PathBuf,
    one: &PathBuf,
    old: Learnt,
    new: Learnt,
) -> Result<bool, Fail> {
    let mut disk = disk(rt, zero, one)?;
    saved(rt.alloc(), &mut disk, old, new)
}

// Whether the disk recovers to the old map; then the new one is saved.
fn saved(alloc: Global, disk: &mut FolderDisk, old: Learnt, new: Learnt) -> Result<bool, Fail> {
    let is_old = recovers_to(alloc, disk, old)?;
    let mut found = recover(alloc, disk)?;
    save(alloc, &mut found.keep, disk, new)?;
    Ok(is_old)
}

// Whether the files hold this slot alone.
fn is_written(rt: &HostRuntime, zero: &PathBuf, one: &PathBuf, slot: &[u8]) -> Result<bool, Fail> {
    let mut disk = disk(rt, zero, one)?;
    Ok(holds(rt.alloc(), &mut disk, slot, &[])?)
}

// Whether the files recover to a map.
fn is_left(rt: &HostRuntime, zero: &PathBuf, one: &PathBuf, map: Learnt) -> Result<bool, Fail> {
    let mut disk = disk(rt, zero, one)?;
    Ok(recovers_to(rt.alloc(), &mut disk, map)?)
}

// Whether the first slot's bytes are there, and all maps.
fn outlive(rt: &HostRuntime, zero: &PathBuf, one: &PathBuf) -> Result<(bool, bool), Fail> {
    let first = saved_after(rt, zero, one, Learnt::Nothing, Learnt::Again(0))?;
    let slot = is_written(rt, zero, one, &digest_slot(rt.alloc())?)?;
    let second = saved_after(rt, zero, one, Learnt::Again(0), Learnt::Again(1))?;
    let third = saved_after(rt, zero, one, Learnt::Again(1), Learnt::Again(2))?;
    let last = is_left(rt, zero, one, Learnt::Again(2))?;
    Ok((slot, first && second && third && last))
}

#[test]
fn maps_outlive_the_files_being_closed(rt: HostRuntime) -> Result<(), Fail> {
    let zero = path(&rt, "slot0")?;
    let one = path(&rt, "slot1")?;
    let (slot, maps) = outlive(&rt, &zero, &one)?;
    fs::remove_file(&rt, zero.as_path())?;
    fs::remove_file(&rt, one.as_path())?;
    assert!(rt; slot, "the first slot's bytes");
    assert!(rt; maps, "the maps");
    Ok(())
}

#[test]
fn a_file_that_cant_be_written_is_a_fault(rt: HostRuntime) -> Result<(), Fail> {
    let name = path(&rt, "fixed")?;
    fs::write(&rt, name.as_path(), [].as_slice())?;
    let answer = saved_in(&rt, &name)?;
    fs::remove_file(&rt, name.as_path())?;
    assert!(rt; answer == Err(SaveFault::Step(1)));
    Ok(())
}

// What a checkpoint answers over a file that was opened to be read alone.
fn saved_in(rt: &HostRuntime, name: &PathBuf) -> Result<Result<(), SaveFault>, Fail> {
    let zero = File::open(rt, name.as_path())?;
    let one = File::open(rt, name.as_path())?;
    let mut disk = FolderDisk::of(zero, one);
    let mut found = recover(rt.alloc(), &mut disk)?;
    Ok(save(rt.alloc(), &mut found.keep, &mut disk, Learnt::Again(0)))
}
