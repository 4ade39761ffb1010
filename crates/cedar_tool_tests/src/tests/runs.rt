//! Runs over files in memory, and streams.
use super::assertions::made;
use cedar_tool::disk::Disk;
use cedar_tool::run::{Texts, run};
use cedar_tool::streams::{Console, Input, Output};
use std::alloc::Global;
use std::io::{self, ErrorKind, Read, Write};
use std::process::Abort;

/// A file in memory: its name and bytes, how often it was written, and whether that fails.
#[derive(Drop)]
pub(super) struct Stored {
    pub(super) name: &'static str,
    pub(super) bytes: Vec<u8>,
    pub(super) writes: usize,
    pub(super) is_sealed: bool,
}

/// Files in memory.
#[derive(Drop)]
pub(super) struct Shelf(pub(super) Vec<Stored>);

impl Disk for Shelf {
    fn read(&self, alloc: Global, name: &str) -> io::Result<Vec<u8>> {
        let mut copy = Vec::new(alloc);
        for file in self.0.iter() {
            if file.name == name {
                copy.extend_from_slice(file.bytes.as_slice())?;
                return Ok(copy);
            }
        }
        Err(io::Error::from(ErrorKind::NotFound))
    }

    fn replace(&mut self, alloc: Global, name: &str, text: &str) -> io::Result<()> {
        for file in self.0.iter_mut() {
            if file.name == name {
                if file.is_sealed {
                    return Err(io::Error::from(ErrorKind::StorageFull));
                }
                let mut bytes = Vec::new(alloc);
                bytes.extend_from_slice(text.as_bytes())?;
                file.bytes = bytes;
                file.writes = file.writes.saturating_add(1);
                return Ok(());
            }
        }
        Err(io::Error::from(ErrorKind::NotFound))
    }
}

/// A shelf of these files.
pub(super) fn shelf_of(
    rt: &(impl Abort + AllocGlobal),
    files: &[(&'static str, &str)],
    is_sealed: bool,
) -> Shelf {
    let mut shelf = Vec::new(rt.alloc());
    for (name, text) in files {
        let mut bytes = Vec::new(rt.alloc());
        made(rt, bytes.extend_from_slice(text.as_bytes()));
        let file = Stored {
            name: *name,
            bytes,
            writes: 0,
            is_sealed,
        };
        made(rt, shelf.push(file));
    }
    Shelf(shelf)
}

/// What a run left: its status, its writers, and its files.
#[derive(Drop)]
pub(super) struct Left<O, E> {
    pub(super) status: u8,
    pub(super) output: O,
    pub(super) errors: E,
    pub(super) shelf: Shelf,
}

/// Runs on these words, files and streams.
pub(super) fn run_on<R: Read + Drop, O: Write, E: Write>(
    rt: &(impl Abort + AllocGlobal),
    words: &[&str],
    (reader, shelf): (R, Shelf),
    (output, errors): (O, E),
) -> Left<O, E> {
    let mut owned = Vec::new(rt.alloc());
    made(
        rt,
        owned.push(made(rt, String::from_str(rt.alloc(), "cedar"))),
    );
    for word in words {
        made(rt, owned.push(made(rt, String::from_str(rt.alloc(), word))));
    }
    let mut texts = Texts {
        input: Input::new(reader),
        disk: shelf,
    };
    let mut console = Console {
        output: Output::new(output),
        errors: Output::new(errors),
        is_terminal: false,
    };
    let status = run(rt.alloc(), owned.as_slice(), &mut texts, &mut console);
    let Texts { input: _, disk } = texts;
    let Console { output, errors, .. } = console;
    Left {
        status,
        output: output.into_writer(),
        errors: errors.into_writer(),
        shelf: disk,
    }
}

/// The same over lists of bytes, with nothing on standard input.
pub(super) fn run_on_files(
    rt: &(impl Abort + AllocGlobal),
    words: &[&str],
    shelf: Shelf,
) -> Left<Vec<u8>, Vec<u8>> {
    let lists = (Vec::new(rt.alloc()), Vec::new(rt.alloc()));
    run_on(rt, words, (b"".as_slice(), shelf), lists)
}
