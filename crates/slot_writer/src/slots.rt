//! The slots of a folder, and the maps that are saved there.

use crate::failure::Failure;
use crate::maps::image_of;
use chew_outside::FolderDisk;
use chew_slot_samples::{SaveFault, save_map};
use chew_slots::{Found, Keep, SlotFault, recover};
use chew_trie_read::Trie;
use std::alloc::Global;
use std::fs::{File, OpenOptions};
use std::path::PathBuf;

// A slot's file, made where it is absent.
fn file(rt: &HostRuntime, folder: &str, name: &str) -> Result<File, Failure> {
    let mut path = PathBuf::new(rt.alloc());
    path.push(folder)?;
    path.push(name)?;
    Ok(
        OpenOptions::new()
            .read(true)
            .write(true)
            .create(true)
            .open(rt, path.as_path())?,
    )
}

/// The disk over the two files of a folder.
pub(crate) fn disk_in(rt: &HostRuntime, folder: &str) -> Result<FolderDisk, Failure> {
    let zero = file(rt, folder, "slot0")?;
    let one = file(rt, folder, "slot1")?;
    Ok(FolderDisk::of(zero, one))
}

// Whether what was found is the map of its number, whole.
fn is_whole(alloc: Global, found: &Found) -> Result<bool, Failure> {
    let number = found.keep.seq();
    let image = image_of(alloc, number)?;
    Ok(found.life == number && found.map.bytes() == image.as_slice())
}

/// What is known of slots that hold a map that is saved here.
pub(crate) fn found_in(alloc: Global, disk: &mut FolderDisk) -> Result<Keep, Failure> {
    match recover(alloc, disk) {
        Ok(found) => {
            if !is_whole(alloc, &found)? {
                return Err(Failure::OtherMap);
            }
            Ok(found.keep)
        }
        Err(SlotFault::NoMemory) => Err(Failure::NoMemory),
        Err(_) => Err(Failure::Refused),
    }
}

/// Saves the map of the next number, which is its life too.
pub(crate) fn save_next(
    alloc: Global,
    keep: &mut Keep,
    disk: &mut FolderDisk,
) -> Result<(), Failure> {
    let number = keep.seq().saturating_add(1);
    let Ok(map) = Trie::of(image_of(alloc, number)?) else {
        return Err(Failure::OtherMap);
    };
    match save_map(alloc, keep, disk, &map, number) {
        Ok(()) => Ok(()),
        Err(SaveFault::NoMemory) => Err(Failure::NoMemory),
        Err(_) => Err(Failure::NotSaved),
    }
}
