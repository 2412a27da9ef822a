//! From the octets of a profile file to the profile.
ghost use Rattle.std.specs.Prelude.{◌≡◌, ◌⊎◌, IfOk, IfErr, Err, Some, None};
ghost use Rattle.toml.specs.View.{table_view};
ghost use Rattle.hpe_profile.specs.ProfileText.{profile_of_text, profile_of_table, with_cause, fields_in, table_of};
ghost use Rattle.hpe_base.specs.Validity.{profile_of};

use crate::fault::ReadFault;
use crate::keys::{KEYS, first_refusal, knows_all};
use crate::values::{columns_in, fields_in, marker_in, rate_text};
use hpe_base::Profile;
use std::alloc::Global;
use toml::Table;

/// The table that the octets write.
fn table_of(alloc: Global, text: &[u8]) -> Result<Table, ReadFault>
    ensures ok { IfOk result (λ t. table_of text.now ≡ Some (table_view t)) }
    ensures refused { IfErr result (λ e. (e ≡ ReadFault.NoMemory)
        ⊎ ((e ≡ ReadFault.Text) × (table_of text.now ≡ None))) }
{
    match toml::table_from_slice(alloc, text) {
        Ok(table) => Ok(table),
        Err(error) => {
            if error.is_memory() {
                return Err(ReadFault::NoMemory);
            }
            Err(ReadFault::Text)
        }
    }
}

/// The profile of the fields that the table writes.
fn profile_in(alloc: Global, table: &Table) -> Result<Profile, ReadFault>
    ensures { (result ≡ with_cause (profile_of (fields_in (table_view table.now))))
        ⊎ (result ≡ Err ReadFault.NoMemory) }
{
    let Ok(marker) = marker_in(alloc, table) else {
        return Err(ReadFault::NoMemory);
    };
    let fields = fields_in(table, rate_text(table), columns_in(table), &marker);
    match Profile::new(&fields) {
        Ok(profile) => Ok(profile),
        Err(fault) => Err(ReadFault::Profile(fault)),
    }
}

/// The profile that the table names.
fn profile_of_table(alloc: Global, table: &Table) -> Result<Profile, ReadFault>
    ensures { (result ≡ profile_of_table (table_view table.now)) ⊎ (result ≡ Err ReadFault.NoMemory) }
{
    if knows_all(table) {
        match first_refusal(table, &KEYS) {
            Some(fault) => Err(fault),
            None => profile_in(alloc, table),
        }
    } else {
        Err(ReadFault::Unknown)
    }
}

/// The profile that a text names, or the first cause why it names none.
#[tactic(auto, unfolding(crate::specs::ProfileText::profile_of_text))]
pub fn read_profile(alloc: Global, text: &[u8]) -> Result<Profile, ReadFault>
    ensures { (result ≡ profile_of_text text.now) ⊎ (result ≡ Err ReadFault.NoMemory) }
{
    match table_of(alloc, text) {
        Ok(table) => profile_of_table(alloc, &table),
        Err(fault) => Err(fault),
    }
}
