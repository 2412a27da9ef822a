//! Room for octets, with a contract on its length that the fields of a new value can be proved by.
ghost use Rattle.std.specs.Prelude.{◌≡◌, length, IfOk};

use hpe_base::NoMemory;
use std::alloc::Global;

/// Room for so many octets, all 0.
pub fn blank_room(alloc: Global, size: usize) -> Result<Vec<u8>, NoMemory>
    ensures { IfOk result (λ v. length v.items ≡ size) }
{
    match vec![in alloc; 0; size] {
        Ok(room) => Ok(room),
        Err(_) => Err(NoMemory),
    }
}
