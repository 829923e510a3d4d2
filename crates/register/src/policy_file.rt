//! The policy's file, as it is read.

use std::fs::File;
use std::io::{self, ErrorKind, Read};

/// A file that is read where it could be opened. Where it couldn't, each read fails.
#[derive(Drop)]
pub enum PolicyFile {
    Open(File),
    Missing,
}

impl PolicyFile {
    /// The file of this name in the folder where the program runs.
    pub fn open(rt: &HostRuntime, name: &str) -> PolicyFile {
        // Where standard input is closed the file is opened in its place, and would be read as the script. A second handle
        // never stands in the place of a standard stream.
        match File::open(rt, name).and_then(|file| file.try_clone()) {
            Ok(file) => PolicyFile::Open(file),
            Err(_) => PolicyFile::Missing,
        }
    }
}

impl Read for PolicyFile {
    fn read(&mut self, buf: &mut [u8]) -> io::Result<usize> {
        match self {
            PolicyFile::Open(file) => file.read(buf),
            PolicyFile::Missing => Err(io::Error::from(ErrorKind::NotFound)),
        }
    }
}
