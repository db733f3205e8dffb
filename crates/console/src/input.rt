// The files that are read, of which one may be standard input.

use crate::line::{ProgressLine, TimedRuntime};
use crate::refusal::{Cause, Refusal};
use crate::stats::Stats;
use command_line::inputs::is_standard_input;
use game::gauge::Gauge;
use game::observer::{Observer, Stage};
use lts::AutError;
use lts::reader::read_aut;
use lts::system::Lts;
use requests::error::MuError;
use std::fs::File;
use std::hash::RandomState;
use std::io::{Read, Stdin};
use std::{fs, io};

/// Takes those of the descriptors 0 to 2 that aren't open, as long as it is kept, so that no file that is opened later is taken for standard input
/// or output: there is nothing to be read, and a write fails.
pub fn take_descriptors(rt: &HostRuntime) -> [io::Result<File>; 3] {
    let take = || File::open(rt, "/dev/null");
    [take(), take(), take()]
}

/// Where a text comes from.
#[derive(Drop)]
enum InputSource {
    File(File),
    Standard(Stdin),
}

/// A file that is read, or standard input.
#[derive(Drop)]
pub struct Input<'a> {
    source: InputSource,
    /// How many bytes it has, where that is known before it is read.
    size: Option<u64>,
    /// How many of them are read.
    count: u64,
    /// What shows that.
    gauge: Option<&'a Gauge>,
}

impl<'a> Input<'a> {
    /// The gauge of a line, if it is drawn, shows how much is read.
    pub fn counted<T: TimedRuntime>(mut self, line: &'a ProgressLine<'a, T>) -> Input<'a> {
        self.gauge = line.gauge();
        self
    }
}

/// The file of this name, where `-` is standard input.
///
/// # Errors
/// U2.
pub fn open<'a>(rt: &HostRuntime, name: &str) -> Result<Input<'a>, Refusal> {
    let (source, size) = if is_standard_input(name) {
        (InputSource::Standard(rt.stdin()), None)
    } else {
        match File::open(rt, name) {
            Ok(file) => (InputSource::File(file), size_of(rt, name)),
            Err(error) => {
                let (error, cause) = (MuError::File, Cause::of(rt, name, error));
                return Err(Refusal { error, cause });
            }
        }
    };
    Ok(Input {
        source,
        size,
        count: 0,
        gauge: None,
    })
}

/// The system of the file of this name. At a terminal a line says how much of it is read.
///
/// # Errors
/// U2, and those of `read_aut`.
pub fn read_system<T: TimedRuntime>(
    rt: &HostRuntime,
    threads: &T,
    name: &str,
    stats: Stats,
) -> Result<Lts, Refusal> {
    let system = open(rt, name)?;
    let hasher = label_hasher(rt)?;
    let (line, ticker) = ProgressLine::start(rt, threads, stats, None);
    line.sees(Stage::ReadingSystem);
    let read = read_aut(rt.alloc(), hasher, system.counted(&line));
    line.finish(ticker);
    Ok(read.map_err(MuError::System)?)
}

/// What tells labels of a system apart as they are read: by a seed that is new in each run, so nobody can make labels that meet.
///
/// # Errors
/// A8 where no seed can be had.
pub fn label_hasher(rt: &HostRuntime) -> Result<RandomState, MuError> {
    RandomState::new(rt).map_err(|_| MuError::System(AutError::Read))
}

/// Whether there is a file of this name that can be read anew: neither standard input nor a pipe can.
pub(crate) fn lasts(rt: &HostRuntime, name: &str) -> bool {
    !is_standard_input(name) && size_of(rt, name).is_some()
}

/// How many bytes a file has; none of what is no file, as a pipe.
fn size_of(rt: &HostRuntime, name: &str) -> Option<u64> {
    match fs::metadata(rt, name) {
        Ok(found) if found.is_file() => Some(found.len()),
        _ => None,
    }
}

impl Read for Input<'_> {
    // Where a block is at hand none is read: that way is kept short.
    #[inline(never)]
    fn read(&mut self, bytes: &mut [u8]) -> io::Result<usize> {
        let read = match &mut self.source {
            InputSource::File(file) => file.read(bytes)?,
            InputSource::Standard(input) => input.read(bytes)?,
        };
        self.count = self.count.saturating_add(read as u64);
        if let (Some(gauge), Some(size)) = (self.gauge, self.size) {
            gauge.show(self.count, size);
        }
        Ok(read)
    }
}
