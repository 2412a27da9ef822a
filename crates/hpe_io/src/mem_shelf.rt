//! A shelf that keeps its texts in memory.
ghost use Rattle.std.specs.Prelude.{◌≡◌, ◌+◌, vec_len, ◌++◌, ◌∷◌, ◌≢◌, ◌⊎◌, ◌↔◌, bytes_eq, IfOk, OnErr, OnOk, Contains, Err, None, Some, [], option_map};
ghost use Rattle.hpe_io.specs.Devices.{next_count};
ghost use Rattle.hpe_io.specs.Shelves.{Fetches, HasShelfCause, text_under, with_octets, fetched};

use crate::device::NoMemory;
use crate::shelf::{MOST_OCTETS, Shelf, ShelfFault};
use std::alloc::{AllocError, Global};
use std::marker::Model;

/// A text and its name.
#[derive(Debug, Drop)]
struct Entry {
    name: String,
    text: Vec<u8>,
}

impl Model for Entry {
    ghost use Rattle.std.specs.Prelude.{string_bytes};
    ghost use Rattle.hpe_io.specs.Shelves.{Named};

    ghost Value = { Named };

    ghost view = { λ e. record { name = string_bytes e.name; text = e.text.items } };
}

impl Entry {
    fn new(alloc: Global, name: &str, text: &[u8]) -> Result<Entry, AllocError>
        ensures { IfOk result (λ e. e ≡ record { name = name.now; text = text.now }) }
    {
        let name = String::from_str(alloc, name)?;
        let text = Vec::from_slice(alloc, text)?;
        Ok(Entry { name, text })
    }

    fn is_named(&self, name: &str) -> bool
        ensures { result ≡ bytes_eq self.now.name name.now }
    {
        self.name.as_str() == name
    }

    fn text(&self) -> &[u8]
        ensures { result.now ≡ self.now.text }
    {
        self.text.as_slice()
    }
}

/// A shelf in memory, which has the faults that it is told to have.
#[derive(Debug, Drop)]
pub struct MemShelf {
    entries: Vec<Entry>,
    failing: Vec<u64>,
    calls: u64,
    faults: u64,
}

impl Model for MemShelf {
    ghost use Rattle.hpe_io.specs.Shelves.{Shelved};

    ghost Value = { Shelved };

    ghost view = { λ s. record {
      texts = s.entries.items;
      failing = s.failing.items;
      calls = s.calls;
      faults = s.faults;
    } };
}

/// The text under the name among the entries.
#[tactic(auto, unfolding(crate::specs::Shelves::text_under))]
fn text_under<'a>(entries: &'a [Entry], name: &str) -> Option<&'a [u8]>
    ensures { option_map (λ t. t.now) result ≡ text_under entries.now name.now }
{
    for entry in entries {
        if entry.is_named(name) {
            return Some(entry.text());
        }
    }
    None
}

/// Puts a text into an empty list, if it isn't too long.
fn put_text(text: &[u8], into: &mut Vec<u8>) -> Result<(), ShelfFault>
    requires { into.old.items ≡ [] }
    ensures text { (with_octets result into.new.items ≡ fetched (Some text.now)) ⊎ (result ≡ Err ShelfFault.NoMemory) }
    ensures refused { OnErr result (into.new.items ≡ []) }
    ensures failed { result ≢ Err ShelfFault.Failed }
{
    if text.len() > MOST_OCTETS {
        return Err(ShelfFault::TooLong);
    }
    match into.extend_from_slice(text) {
        Ok(()) => Ok(()),
        Err(_) => Err(ShelfFault::NoMemory),
    }
}

impl MemShelf {
    /// An empty shelf. A fetch whose number, from 0, is in `failing` answers `Failed`.
    pub fn new(alloc: Global, failing: &[u64]) -> Result<MemShelf, NoMemory>
        ensures { IfOk result (λ s. s ≡ record { texts = []; failing = failing.now; calls = 0; faults = 0 }) }
    {
        let failing = Vec::from_slice(alloc, failing).map_err(|_| NoMemory)?;
        Ok(MemShelf {
            entries: Vec::new(alloc),
            failing,
            calls: 0,
            faults: 0,
        })
    }

    /// Adds a copy of the text under the name, which isn't there. After a refusal the shelf is unchanged.
    pub fn add(&mut self, alloc: Global, name: &str, text: &[u8]) -> Result<(), NoMemory>
        requires { text_under self.old.texts name.now ≡ None }
        ensures ok { OnOk result (self.new ≡ record self.old {
          texts = self.old.texts ++ record { name = name.now; text = text.now } ∷ [];
        }) }
        ensures err { OnErr result (self.new ≡ self.old) }
    {
        let Ok(entry) = Entry::new(alloc, name, text) else {
            return Err(NoMemory);
        };
        match self.entries.push(entry) {
            Ok(()) => Ok(()),
            Err(_) => Err(NoMemory),
        }
    }
}

impl Shelf for MemShelf {
    ghost use Rattle.std.specs.Prelude.{Some};

    ghost texts = { λ s. Some s.texts };

    ghost faults = { λ s. s.faults };

    fn fetch(&mut self, name: &str, into: &mut Vec<u8>) -> Result<(), ShelfFault>
        ensures text { Fetches self.old.texts name.now result into.new.items }
        ensures refused { OnErr result (into.new.items ≡ []) }
        ensures cause { HasShelfCause self.old.faults self.new.faults result }
        ensures fails { (result ≡ Err ShelfFault.Failed) ↔ Contains self.old.failing self.old.calls }
        ensures failed { result ≡ Err ShelfFault.Failed → self.new.faults ≡ next_count self.old.faults }
        ensures other { result ≢ Err ShelfFault.Failed → self.new.faults ≡ self.old.faults }
        ensures rest { self.new ≡ record self.old {
          calls = next_count self.old.calls;
          faults = self.new.faults;
        } }
    {
        let call = self.calls;
        self.calls = call.saturating_add(1);
        into.clear();
        if self.failing.contains(&call) {
            self.faults = self.faults.saturating_add(1);
            return Err(ShelfFault::Failed);
        }
        match text_under(self.entries.as_slice(), name) {
            Some(text) => put_text(text, into),
            None => Err(ShelfFault::Absent),
        }
    }
}

#[cfg(test)]
mod tests {
    use super::*;
    use std::test::Fail;

    /// A text that is too long by one octet.
    fn long_text(alloc: Global) -> Result<Vec<u8>, Fail>
        ensures { IfOk result (λ v. vec_len v ≡ MOST_OCTETS + 1) }
    {
        let text = vec![in alloc; 7; MOST_OCTETS + 1]?;
        Ok(text)
    }

    #[test]
    #[tactic(auto, unfolding(crate::specs::Shelves::text_under))]
    fn fetches_by_name(rt: HostRuntime) -> Result<(), Fail> {
        let long = long_text(rt.alloc())?;
        let mut shelf = MemShelf::new(rt.alloc(), &[2])?;
        shelf.add(rt.alloc(), "a", b"text")?;
        shelf.add(rt.alloc(), "long", &long)?;
        shelf.add(rt.alloc(), "full", &long[1..])?;
        let cases: [(&str, Result<(), ShelfFault>, &[u8]); 6] = [
            ("a", Ok(()), b"text"),
            ("b", Err(ShelfFault::Absent), b""),
            ("a", Err(ShelfFault::Failed), b""),
            ("long", Err(ShelfFault::TooLong), b""),
            ("full", Ok(()), &long[1..]),
            ("a", Ok(()), b"text"),
        ];
        let mut into = Vec::new(rt.alloc());
        for (name, answer, text) in &cases {
            assert!(rt; shelf.fetch(name, &mut into) == *answer);
            assert!(rt; into.as_slice() == *text);
        }
        Ok(())
    }
}
