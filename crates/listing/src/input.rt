// The bench file's bytes, and what the command asks for.
ghost use Rattle.std.specs.Prelude.{◌≤◌, length, IfOk};

use crate::course::Settings;
use crate::say;
use std::env::{Env, FillError};
use std::fs::File;
use std::io::{ErrorKind, Read, Seek, SeekFrom, Stdin};
use std::{io, str};

// What is read: standard input, or a file that was opened by its name.
#[derive(Drop)]
pub(crate) enum Source {
    Standard(Stdin),
    Named(File),
}

impl Read for Source {
    fn read(&mut self, buf: &mut [u8]) -> io::Result<usize> {
        match self {
            Source::Standard(stdin) => stdin.read(buf),
            Source::Named(file) => file.read(buf),
        }
    }
}

impl Source {
    // Passes over so many bytes without reading them, where it can.
    pub(crate) fn skip(&mut self, bytes: i64) -> bool {
        match self {
            Source::Standard(_) => false,
            Source::Named(file) => file.seek(SeekFrom::Current(bytes)).is_ok(),
        }
    }

    // Reads until the room is full, or to the file's end: how many bytes that are.
    pub(crate) fn fill(&mut self, room: &mut [u8]) -> io::Result<usize>
        ensures { IfOk result (λ count. count ≤ length room.new) }
    {
        let mut length = 0;
        // kept: a turn goes on by as many bytes as the system gives, so no range and no iterator counts them
        while length < room.len() {
            match self.read(&mut room[length..])? {
                0 => return Ok(length),
                more => length += more,
            }
        }
        Ok(length)
    }
}

// An argument; empty where there is none, or too little room for it.
pub(crate) fn argument(rt: HostRuntime, at: usize, room: &mut [u8]) -> &[u8]
    ensures { length result.now ≤ length room.old }
{
    match rt.arg(at, room) {
        Ok(length) => &room[..length],
        Err(_) => &[],
    }
}

// The name of the file, from the first argument: `-`, or none at all, is standard input. An empty one is the name of no file.
pub(crate) fn name(rt: HostRuntime, room: &mut [u8]) -> &[u8] {
    match rt.arg(1, room) {
        Ok(length) => &room[..length],
        Err(FillError::TooLong) => &[],
        Err(FillError::NotPresent) => b"-",
    }
}

// A name that is no UTF-8 leads to no file here.
pub(crate) fn path_of(name: &[u8]) -> io::Result<&str> {
    str::from_utf8(name).map_err(|_| io::Error::from(ErrorKind::InvalidFilename))
}

pub(crate) fn open(rt: HostRuntime, path: &[u8]) -> io::Result<Source> {
    match path {
        b"-" => Ok(Source::Standard(rt.stdin())),
        _ => Ok(Source::Named(File::open(&rt, path_of(path)?)?)),
    }
}

fn filled(rt: HostRuntime, path: &[u8], room: &mut [u8]) -> io::Result<usize> {
    open(rt, path)?.fill(room)
}

// The file's text; None where the file cannot be read or leaves no room, and then it was said.
pub(crate) fn read<'a>(rt: HostRuntime, path: &[u8], room: &'a mut [u8]) -> Option<&'a [u8]> {
    match filled(rt, path, room) {
        Ok(length) if length < room.len() => return Some(&room[..length]),
        Ok(_) => say::too_long(rt.stderr(), path),
        Err(error) => say::fail(rt, path, error),
    }
    None
}

// Whether the second argument, the command's own, has this letter.
pub(crate) fn has(rt: HostRuntime, letter: u8) -> bool {
    let mut room = [0u8; 8];
    argument(rt, 2, &mut room).contains(&letter)
}

pub(crate) fn settings(rt: HostRuntime, rows: bool) -> Settings {
    Settings {
        rows,
        decimal: has(rt, b'd'),
        quiet: has(rt, b'q'),
    }
}

// The block from which on a trace is read: the third argument, which the command has looked at.
pub(crate) fn first_block(rt: HostRuntime) -> u64 {
    let mut room = [0u8; 20];
    bench_words::number_of(argument(rt, 3, &mut room), u64::MAX).unwrap_or(0)
}
