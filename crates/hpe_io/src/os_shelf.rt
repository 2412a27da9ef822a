//! An adapter over the folder of the process. It tells nothing of the texts.
ghost use Rattle.std.specs.Prelude.{◌≡◌, ◌≢◌, Err, OnErr, None, []};
ghost use Rattle.hpe_io.specs.Devices.{next_count};
ghost use Rattle.hpe_io.specs.Shelves.{HasShelfCause};
ghost use Rattle.hpe_io.specs.System.{shelf_faults};

use crate::shelf::{MOST_OCTETS, Shelf, ShelfFault};
use crate::system::Patience;
use std::fs::File;
use std::io::{ErrorKind, Read};
use std::rt::Files;

/// The octets of one read.
const PIECE: usize = 4_096;

/// A shelf over the files of the folder that the process runs in. It tells nothing of the texts.
#[derive(Drop)]
pub struct OsShelf<'a, F: Files> {
    files: &'a F,
    faults: u64,
}

impl<'a, F: Files> OsShelf<'a, F> {
    /// A shelf over the files that the runtime value opens, with no faults yet. It takes no memory.
    pub fn new(files: &'a F) -> OsShelf<'a, F>
        ensures { shelf_faults result ≡ 0 }
    {
        OsShelf { files, faults: 0 }
    }
}

/// Appends what the reader has left, if that isn't too long.
fn read_text<R: Read>(reader: &mut R, into: &mut Vec<u8>) -> Result<(), ShelfFault> {
    let mut piece = [0; PIECE];
    let mut patience = Patience::new();
    'reads: while into.len() <= MOST_OCTETS {
        match reader.read(&mut piece) {
            Ok(0) => return Ok(()),
            Ok(count) => {
                if into.extend_from_slice(&piece[..count]).is_err() {
                    return Err(ShelfFault::NoMemory);
                }
            }
            Err(error) => {
                if !patience.excuses(&error) {
                    return Err(ShelfFault::Failed);
                }
            }
        }
    }
    Err(ShelfFault::TooLong)
}

/// Opens the file of that name and reads it.
fn read_file<F: Files>(files: &F, name: &str, into: &mut Vec<u8>) -> Result<(), ShelfFault> {
    match File::open(files, name) {
        Ok(mut file) => read_text(&mut file, into),
        Err(error) => {
            if error.kind() == ErrorKind::NotFound {
                Err(ShelfFault::Absent)
            } else {
                Err(ShelfFault::Failed)
            }
        }
    }
}

impl<'a, F: Files> Shelf for OsShelf<'a, F> {
    ghost texts = { λ _. None };

    ghost faults = { λ s. s.faults };

    fn fetch(&mut self, name: &str, into: &mut Vec<u8>) -> Result<(), ShelfFault>
        ensures refused { OnErr result (into.new.items ≡ []) }
        ensures cause { HasShelfCause (shelf_faults self.old) (shelf_faults self.new) result }
        ensures failed { result ≡ Err ShelfFault.Failed → shelf_faults self.new ≡ next_count (shelf_faults self.old) }
        ensures other { result ≢ Err ShelfFault.Failed → shelf_faults self.new ≡ shelf_faults self.old }
    {
        into.clear();
        match read_file(self.files, name, into) {
            Ok(()) => Ok(()),
            Err(fault) => {
                into.clear();
                if fault == ShelfFault::Failed {
                    self.faults = self.faults.saturating_add(1);
                }
                Err(fault)
            }
        }
    }
}
