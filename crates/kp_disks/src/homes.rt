use crate::FileDisk;
use kp_io::{Four, Seven};
use std::alloc::{AllocError, Global};
use std::fs::{File, Files};
use std::io::Print;

// A home whose disks have no file yet. It takes no memory.
fn unplaced_home<R: Files<File = File> + Copy, E: Print + Copy>(
    alloc: Global,
    files: R,
    errors: E,
) -> Four<FileDisk<R, E>> {
    Four {
        j0: FileDisk::new(files, errors, String::new(alloc), String::new(alloc)),
        j1: FileDisk::new(files, errors, String::new(alloc), String::new(alloc)),
        i0: FileDisk::new(files, errors, String::new(alloc), String::new(alloc)),
        i1: FileDisk::new(files, errors, String::new(alloc), String::new(alloc)),
        moments: 0,
    }
}

// Seven homes whose disks have no file yet.
fn unplaced_homes<R: Files<File = File> + Copy, E: Print + Copy>(
    alloc: Global,
    files: R,
    errors: E,
) -> Seven<FileDisk<R, E>> {
    Seven {
        one: unplaced_home(alloc, files, errors),
        two: unplaced_home(alloc, files, errors),
        three: unplaced_home(alloc, files, errors),
        four: unplaced_home(alloc, files, errors),
        five: unplaced_home(alloc, files, errors),
        six: unplaced_home(alloc, files, errors),
        seven: unplaced_home(alloc, files, errors),
    }
}

// Gives a disk the file of one slot of a home.
fn place_disk<R: Files<File = File>, E: Print>(
    alloc: Global,
    disk: &mut FileDisk<R, E>,
    folder: &str,
    node: u8,
    slot: &str,
) -> Result<(), AllocError> {
    let path = format!(in alloc; "{folder}/n{node}.{slot}")?;
    let folder = String::from_str(alloc, folder)?;
    disk.place(folder, path);
    Ok(())
}

// Gives the disks of a home their files.
fn place_home<R: Files<File = File>, E: Print>(
    alloc: Global,
    home: &mut Four<FileDisk<R, E>>,
    folder: &str,
    node: u8,
) -> Result<(), AllocError> {
    place_disk(alloc, &mut home.j0, folder, node, "j0")?;
    place_disk(alloc, &mut home.j1, folder, node, "j1")?;
    place_disk(alloc, &mut home.i0, folder, node, "i0")?;
    place_disk(alloc, &mut home.i1, folder, node, "i1")
}

// Gives the disks of seven homes their files.
fn place_homes<R: Files<File = File>, E: Print>(
    alloc: Global,
    homes: &mut Seven<FileDisk<R, E>>,
    folder: &str,
) -> Result<(), AllocError> {
    place_home(alloc, &mut homes.one, folder, 1)?;
    place_home(alloc, &mut homes.two, folder, 2)?;
    place_home(alloc, &mut homes.three, folder, 3)?;
    place_home(alloc, &mut homes.four, folder, 4)?;
    place_home(alloc, &mut homes.five, folder, 5)?;
    place_home(alloc, &mut homes.six, folder, 6)?;
    place_home(alloc, &mut homes.seven, folder, 7)
}

/// The home of a node over four files of a folder: `nN.j0`, `nN.j1`, `nN.i0` and `nN.i1`, where N is the node.
///
/// The folder is one that is there. Nothing is opened or made yet.
pub fn file_home<R: Files<File = File> + Copy, E: Print + Copy>(
    alloc: Global,
    files: R,
    errors: E,
    folder: &str,
    node: u8,
) -> Result<Four<FileDisk<R, E>>, AllocError> {
    let mut home = unplaced_home(alloc, files, errors);
    match place_home(alloc, &mut home, folder, node) {
        Ok(()) => Ok(home),
        Err(none) => {
            drop(home);
            Err(none)
        }
    }
}

/// The homes of the nodes 1 to 7 over the files of a folder, each as `file_home` makes it.
pub fn file_homes<R: Files<File = File> + Copy, E: Print + Copy>(
    alloc: Global,
    files: R,
    errors: E,
    folder: &str,
) -> Result<Seven<FileDisk<R, E>>, AllocError> {
    let mut homes = unplaced_homes(alloc, files, errors);
    match place_homes(alloc, &mut homes, folder) {
        Ok(()) => Ok(homes),
        Err(none) => {
            drop(homes);
            Err(none)
        }
    }
}
