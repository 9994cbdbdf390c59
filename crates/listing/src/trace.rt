// The rows of a run on disk (docs/TRACE.md). Those that wait stand at the start of the steps' rows. A block is written when it is full,
// and what is left at the end: so only the last block that is written may not be full.
use crate::course::{Course, Status};
use crate::{input, room, say};
use std::fs::File;
use std::io;
use std::io::{ErrorKind, Write};
use trace_blocks::BLOCK_BYTES;

// The words of a full block: ten rows of six.
const FULL: usize = 60;

// The bytes of the blocks that a step may fill: 256 rows, and nine that waited, are 26 of them.
const BYTES: usize = 13312;

#[derive(Drop)]
pub(crate) struct Trace<'a> {
    // None where no trace is asked for.
    pub file: Option<&'a File>,
    // How many words of rows wait.
    pub waiting: usize,
    // How many blocks are written.
    pub blocks: u64,
}

impl<'a> Trace<'a> {
    pub(crate) fn new(file: Option<&'a File>) -> Self {
        Trace {
            file,
            waiting: 0,
            blocks: 0,
        }
    }
}

// Opens the file that the third argument names, where a trace is asked for. What stands in it goes. Where that fails, it was said.
pub(crate) fn open(rt: HostRuntime) -> io::Result<Option<File>> {
    if !input::has(rt, b't') {
        return Ok(None);
    }
    let mut room: room::Page = room::filled(0);
    let path = input::argument(rt, 3, &mut room);
    match opened(rt, path) {
        Ok(file) => Ok(Some(file)),
        Err(error) => {
            say::fail(rt, path, error);
            Err(error)
        }
    }
}

fn opened(rt: HostRuntime, path: &[u8]) -> io::Result<File> {
    File::create(&rt, input::path_of(path)?)
}

fn fail(rt: HostRuntime, error: io::Error) {
    let mut room: room::Page = room::filled(0);
    say::fail(rt, input::argument(rt, 3, &mut room), error);
}

// How many bytes could be written, and why no more.
fn write_some(mut file: &File, bytes: &[u8]) -> (usize, io::Result<()>) {
    let mut done = 0;
    // kept: a turn goes on by as many bytes as the system takes, so no range and no iterator counts them
    while done < bytes.len() {
        match file.write(&bytes[done..]) {
            Ok(0) => return (done, Err(io::Error::from(ErrorKind::WriteZero))),
            Ok(more) => done += more,
            Err(error) => return (done, Err(error)),
        }
    }
    (done, Ok(()))
}

impl Course<'_> {
    // The rows that a step has laid down, behind those that wait, wait too.
    pub(crate) fn keep(&mut self, written: usize) {
        let Some(file) = self.trace.file else {
            return;
        };
        let waiting = self.trace.waiting.saturating_add(written.saturating_mul(6));
        self.trace.waiting = waiting;
        if FULL <= waiting {
            self.write_full(file);
        }
    }

    // Writes the full blocks; what waits behind them moves to the front.
    fn write_full(&mut self, file: &File) {
        let waiting = self.trace.waiting;
        let end = waiting / FULL * FULL;
        if end <= self.rows.len() {
            self.write_rows(end, file);
            words::move_up(self.rows, waiting, end);
            self.trace.waiting = waiting % FULL;
        }
    }

    // Writes what is left, and waits until it is on the disk.
    pub(crate) fn finish(&mut self) {
        let Some(file) = self.trace.file else {
            return;
        };
        let waiting = self.trace.waiting;
        if waiting <= self.rows.len() && !self.is_cut() {
            self.write_rows(waiting, file);
            self.settle(file);
        }
    }

    fn is_cut(&self) -> bool {
        matches!(self.listing.status, Status::Cut)
    }

    // Writes the first of the rows, so many words.
    fn write_rows(&mut self, count: usize, file: &File) {
        let mut room = [0; BYTES];
        let blocks = self.trace.blocks;
        let Some(rows) = self.rows.get(..count) else {
            return;
        };
        match trace_files::write_trace(rows, blocks, &mut room) {
            Ok(length) => {
                if let Some(bytes) = room.get(..length) {
                    self.write(bytes, file);
                }
            }
            Err(_) => {
                let err = self.listing.rt.stderr();
                say::print(err, "jambthrush: a trace has at most 4294967296 rows\n");
                self.listing.status = Status::Cut;
            }
        }
    }

    // Blocks go behind those that are written.
    fn write(&mut self, bytes: &[u8], file: &File) {
        let (done, end) = write_some(file, bytes);
        let more = (done / BLOCK_BYTES) as u64;
        self.trace.blocks = self.trace.blocks.saturating_add(more);
        if let Err(error) = end {
            fail(self.listing.rt, error);
            self.cut_off(file);
            self.listing.status = Status::Cut;
        }
    }

    // The file could not take all: what was written of a block that is not whole goes, where the file is one that can be cut.
    fn cut_off(&mut self, file: &File) {
        let rt = self.listing.rt;
        let err = rt.stderr();
        let blocks = self.trace.blocks;
        if let Some(length) = blocks.checked_mul(512) {
            let _ = file.set_len(length);
        }
        let mut room: room::Page = room::filled(0);
        say::bytes(err, input::argument(rt, 3, &mut room));
        say::print(
            err,
            format_args!(": {blocks} whole blocks are on the disk\n"),
        );
    }

    // The system has written what it was handed. A pipe or a device has no disk, which is no error.
    fn settle(&mut self, file: &File) {
        if self.is_cut() {
            return;
        }
        if let Err(error) = file.sync_all() {
            if error.kind() != ErrorKind::InvalidInput {
                fail(self.listing.rt, error);
                self.listing.status = Status::Cut;
            }
        }
    }
}
