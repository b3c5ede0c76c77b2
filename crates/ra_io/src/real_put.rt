//! How the system's files are put.

use crate::PutFailed;
use std::alloc::{Alloc, AllocError, Allocator};
use std::fs::{File, OpenFile, Permissions};
use std::io::{ErrorKind, Write};
use std::rt::Files;
use std::{fs, io};

// How many names beside a file are tried.
const NAMES: u32 = 1_000;

/// Replaces the content of a file.
///
/// What stands under the name, where it is a regular file that may be written or nothing at all, stays until all bytes
/// are with the system in a file beside it, which then takes the name: so after a failure it stands there still, and
/// the file beside it is removed. Everything else, as a link, a device or a pipe, is written in place.
pub fn put_file<R: Files + Alloc>(rt: &R, name: &str, bytes: &[u8]) -> Result<(), PutFailed> {
    match fs::symlink_metadata(rt, name) {
        Ok(found) if found.is_file() => {
            told(File::options().write(true).open(rt, name).map(drop))?;
            replace(rt, name, Some(found.permissions()), bytes)
        }
        Ok(_) => told(fs::write(rt, name, bytes)),
        Err(error) if error.kind() == ErrorKind::NotFound => replace(rt, name, None, bytes),
        Err(_) => Err(PutFailed::Failed),
    }
}

// A call of the system went well, or it is a fault.
fn told(answer: io::Result<()>) -> Result<(), PutFailed> {
    match answer {
        Ok(()) => Ok(()),
        Err(_) => Err(PutFailed::Failed),
    }
}

// Writes a file beside the name, with these permissions if there are any, and lets it take the name.
fn replace<R: Files + Alloc>(
    rt: &R,
    name: &str,
    permissions: Option<Permissions>,
    bytes: &[u8],
) -> Result<(), PutFailed> {
    let (beside, file) = open_beside(rt, name)?;
    let filled = fill(file, permissions, bytes).and_then(|_| fs::rename(rt, beside.as_str(), name));
    if filled.is_err() {
        let _ = fs::remove_file(rt, beside.as_str());
    }
    told(filled)
}

// Fills a new file.
fn fill<F: Write + OpenFile + Drop>(
    mut file: F,
    permissions: Option<Permissions>,
    bytes: &[u8],
) -> io::Result<()> {
    file.write_all(bytes)?;
    if let Some(permissions) = permissions {
        file.set_permissions(permissions)?;
    }
    file.sync_all()
}

// Makes a file beside the name, under the first name that is free.
fn open_beside<R: Files + Alloc>(rt: &R, name: &str) -> Result<(String<R::A>, R::File), PutFailed> {
    for number in 0..NAMES {
        let Ok(beside) = name_beside(rt.alloc(), name, number) else {
            return Err(PutFailed::Memory);
        };
        match File::create_new(rt, beside.as_str()) {
            Ok(file) => return Ok((beside, file)),
            Err(error) if error.kind() == ErrorKind::AlreadyExists => (),
            Err(_) => return Err(PutFailed::Failed),
        }
    }
    Err(PutFailed::Failed)
}

// A name in the folder of another one.
fn name_beside<A: Allocator + Drop>(
    alloc: A,
    name: &str,
    number: u32,
) -> Result<String<A>, AllocError> {
    let folder = match name.rsplit_once('/') {
        Some((folder, _)) => folder,
        None => ".",
    };
    format!(in alloc; "{folder}/ra_put.{number}")
}
