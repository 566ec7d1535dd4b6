//! A shelf of files.

ghost use Rattle.std.specs.Prelude.{◌≡◌, None};
ghost use Rattle.std.specs.Io.{ReadsAtMost};

use crate::Shelf;
use crate::calls::fault;
use crate::std_streams::read_retrying;
use base_types::Failed;
use std::fs;
use std::fs::File;
use std::io::{Seek, SeekFrom};
use std::marker::Model;
use std::rt::Files;

/// A shelf of files. A name is a path; one that isn't absolute starts at the current folder. It tells
/// no contents. A read that a signal interrupts is tried again, a thousand times in all; any other
/// error, and the last interruption, is a fault.
#[derive(Drop)]
pub struct DirShelf<R: Files> {
    files: R,
    faults: u64,
}

impl<R: Files> Model for DirShelf<R> {
    ghost use Rattle.erlay_base.specs.Fakes.{Adapter};

    ghost Value = { Adapter R };

    ghost view = { λ s. record { stream = s.files; faults = s.faults } };
}

impl<R: Files> DirShelf<R> {
    /// A shelf of the files that `files` gives.
    pub fn new(files: R) -> Self
        ensures faults { result.faults ≡ 0 }
    {
        DirShelf { files, faults: 0 }
    }
}

impl<R: Files> Shelf for DirShelf<R> {
    ghost told = { λ _. None };

    ghost faults = { λ s. s.faults };

    fn read_at(&mut self, name: &str, at: u64, buf: &mut [u8]) -> Result<usize, Failed> {
        match read_file_at(&self.files, name, at, buf) {
            Ok(count) => Ok(count),
            Err(Failed) => Err(fault(&mut self.faults)),
        }
    }

    fn save(&mut self, name: &str, bytes: &[u8]) -> Result<(), Failed> {
        match fs::write(&self.files, name, bytes) {
            Ok(()) => Ok(()),
            Err(_) => Err(fault(&mut self.faults)),
        }
    }
}

// One read from a file, from the byte at an index on.
fn read_file_at<R: Files>(files: &R, name: &str, at: u64, buf: &mut [u8]) -> Result<usize, Failed>
    ensures { ReadsAtMost result buf.new }
{
    let Ok(mut file) = File::open(files, name) else {
        return Err(Failed);
    };
    if file.seek(SeekFrom::Start(at)).is_err() {
        return Err(Failed);
    }
    read_retrying(&mut file, buf)
}
