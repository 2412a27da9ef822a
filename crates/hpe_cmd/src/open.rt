//! The profile that a command names.

ghost use Rattle.std.specs.Prelude.{◌≡◌, ◌≢◌, ◌≤◌, ◌⊎◌, Err, IfErr, IfSome, IsTrue, Ok, None, Some};
ghost use Rattle.hpe_base.specs.Parameters.{basic};
ghost use Rattle.hpe_profile.specs.ProfileText.{profile_of_text};
ghost use Rattle.hpe_cmd.specs.Causes.{ShelfCause, status_after};
ghost use Rattle.hpe_cmd.specs.Runs.{Opens, named_profile, opened, read_as, refusal_of};
ghost use Rattle.hpe_cmd.specs.Statuses.{is_early, status_of};
ghost use Rattle.hpe_cmd.specs.Words.{text_behind};

use crate::ending::Ending;
use hpe_base::Profile;
use hpe_io::{Shelf, ShelfFault};
use hpe_profile::{ReadFault, read_profile};
use std::alloc::Global;

/// How a run ends after a fetch that was refused.
fn refusal_of(fault: ShelfFault) -> Ending
    ensures value { result ≡ refusal_of fault }
    ensures early { IsTrue (is_early (status_of result)) × (result ≢ Ending.Usage) }
    ensures fault { result ≡ Ending.ShelfFault → fault ≡ ShelfFault.Failed }
{
    match fault {
        ShelfFault::Failed => Ending::ShelfFault,
        ShelfFault::Absent => Ending::ProfileAbsent,
        ShelfFault::TooLong => Ending::ProfileTooLong,
        ShelfFault::NoMemory => Ending::NoMemory,
    }
}

/// The profile that a text names.
fn profile_of(alloc: Global, text: &[u8]) -> Result<Profile, Ending>
    ensures text { (result ≡ read_as (profile_of_text text.now)) ⊎ (result ≡ Err Ending.NoMemory) }
    ensures early { IfErr result (λ e. IsTrue (is_early (status_of e)) × (e ≢ Ending.Usage)) }
    ensures no_fault { result ≢ Err Ending.ShelfFault }
{
    match read_profile(alloc, text) {
        Ok(p) => Ok(p),
        Err(ReadFault::NoMemory) => Err(Ending::NoMemory),
        Err(cause) => Err(Ending::BadProfile { cause }),
    }
}

/// The profile of that name.
fn fetch_profile<S: Shelf>(alloc: Global, shelf: &mut S, name: &str) -> Result<Profile, Ending>
    ensures settled { IfSome (S.texts shelf.old) (λ ts. Opens (named_profile name.now ts) result) }
    ensures cause { ShelfCause (status_after result) (S.faults shelf.old) (S.faults shelf.new) }
    ensures later { S.faults shelf.old ≤ S.faults shelf.new }
    ensures same { S.texts shelf.new ≡ S.texts shelf.old }
    ensures early { IfErr result (λ e. IsTrue (is_early (status_of e)) × (e ≢ Ending.Usage)) }
{
    let mut text = Vec::new(alloc);
    match shelf.fetch(name, &mut text) {
        Ok(()) => profile_of(alloc, &text),
        Err(fault) => Err(refusal_of(fault)),
    }
}

/// The profile of that name, or the built-in one where none is given.
pub fn open_profile<S: Shelf>(
    alloc: Global,
    shelf: &mut S,
    name: Option<&str>,
) -> Result<Profile, Ending>
    ensures settled { IfSome (opened (S.texts shelf.old) (text_behind name.entry)) (λ settled. Opens settled result) }
    ensures unnamed { text_behind name.entry ≡ None → (result ≡ Ok basic) × (shelf.new ≡ shelf.old) }
    ensures cause { ShelfCause (status_after result) (S.faults shelf.old) (S.faults shelf.new) }
    ensures later { S.faults shelf.old ≤ S.faults shelf.new }
    ensures same { S.texts shelf.new ≡ S.texts shelf.old }
    ensures early { IfErr result (λ e. IsTrue (is_early (status_of e)) × (e ≢ Ending.Usage)) }
{
    match name {
        None => Ok(Profile::basic()),
        Some(name) => fetch_profile(alloc, shelf, name),
    }
}
