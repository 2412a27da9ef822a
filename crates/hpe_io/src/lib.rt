//! Sources and sinks of octets that count their faults.
//!
//! The signalling chain reads its input from a [`Source`] and writes its output to a [`Sink`]. Both are
//! traits, so that a contract can name the octets that pass: those in memory tell them, those over the
//! system's streams don't.
#![tactic(auto)]

mod device;
mod feed;
mod intake;
mod mem_shelf;
mod mem_sink;
mod mem_source;
mod os_shelf;
mod shelf;
mod system;

pub use device::{Failed, NoMemory, Sink, Source};
pub use intake::{Intake, IntakeFault};
pub use mem_shelf::MemShelf;
pub use mem_sink::MemSink;
pub use mem_source::{MemSource, SureSource};
pub use os_shelf::OsShelf;
pub use shelf::{Shelf, ShelfFault};
pub use system::{OsSink, OsSource};
