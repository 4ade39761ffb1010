//! The files of a run.
ghost use Rattle.std.specs.Prelude.{◌≡◌, ◌≢◌, ℕ, List, Option, None, IfOk, IfErr, OnOk, OnErr};
ghost use Rattle.cedar_tool.specs.Disks.{Files as Known, Has, Lacks, Puts};
ghost use Rattle.cedar_tool.specs.Streams.{IsWant};

use crate::streams::Input;
use std::alloc::Global;
use std::fs::{self, Files, Metadata, OpenFile};
use std::io::{self, ErrorKind, Write};
use std::os::unix::fs::MetadataExt;

/// Files, each under its name.
pub trait Disk {
    /// What stands under each name, where that is known.
    ghost files: { Self → Option Known } = { λ _. None };

    /// The bytes of a file. Refused where there is none of this name or it can't be read, where it
    /// has more bytes than a text has, and for want of memory.
    fn read(&self, alloc: Global, name: &str) -> io::Result<Vec<u8>>
        ensures has { IfOk result (λ bytes. Has (files self.now) name.now bytes.items) }
        ensures lacks { IfErr result (λ error.
            ¬ IsWant error → Lacks (files self.now) name.now) };

    /// Puts a text in the place of a file's bytes: all of it, or nothing is changed.
    fn replace(&mut self, alloc: Global, name: &str, text: &str) -> io::Result<()>
        ensures put { OnOk result (Puts (files self.old) (files self.new) name.now text.now) }
        ensures kept { OnErr result (files self.new ≡ files self.old) };
}

/// The files of a system.
#[derive(Drop)]
pub struct Filesystem<'a, F> {
    files: &'a F,
}

/// How many names are tried for the file that is written beside another one.
const TRIES: u8 = 100;

impl<'a, F: Files> Filesystem<'a, F> {
    /// All files of a system.
    pub fn new(files: &'a F) -> Filesystem<'a, F> {
        Filesystem { files }
    }
}

impl<F: Files> Disk for Filesystem<'_, F> {
    fn read(&self, alloc: Global, name: &str) -> io::Result<Vec<u8>> {
        Input::new(fs::open(self.files, name)?).bytes(alloc)
    }

    // A file beside it is written and passed on to the disk, and then renamed: so a full disk, or
    // an end in the middle, loses nothing. Where the name is a link, what it leads to is replaced.
    fn replace(&mut self, alloc: Global, name: &str, text: &str) -> io::Result<()> {
        let path = self.files.canonicalize(alloc, name)?;
        let old = self.files.metadata(path.as_str())?;
        if !old.is_file() {
            return Err(io::Error::other("not a regular file"));
        }
        let (beside, file) = create_beside(alloc, self.files, path.as_str())?;
        let written = fill(self.files, file, beside.as_str(), &old, text);
        let renamed = written.and_then(|()| self.files.rename(beside.as_str(), path.as_str()));
        if renamed.is_err() {
            let _ = self.files.remove_file(beside.as_str());
        }
        renamed
    }
}

/// A new file beside another one, under a name that no file has.
fn create_beside<F: Files>(alloc: Global, files: &F, path: &str) -> io::Result<(String, F::File)> {
    for number in 0..TRIES {
        let beside = format!(in alloc; "{path}.cedar-{number}")?;
        match fs::File::create_new(files, beside.as_str()) {
            Ok(file) => return Ok((beside, file)),
            Err(error) if error.kind() == ErrorKind::AlreadyExists => {}
            Err(error) => return Err(error),
        }
    }
    Err(io::Error::from(ErrorKind::AlreadyExists))
}

/// Writes a text into a new file, with the owner and the permissions of an old one.
fn fill<F: Files>(
    files: &F,
    mut file: F::File,
    name: &str,
    old: &Metadata,
    text: &str,
) -> io::Result<()> {
    // Another owner's file stays that owner's where this may be done. Both come before the bytes,
    // which so never stand in a file with a new one's permissions, which may be wider.
    let _ = files.chown(name, Some(old.uid()), Some(old.gid()));
    file.set_permissions(old.permissions())?;
    file.write_all(text.as_bytes())?;
    file.sync_all()
}
