//! Puncturing columns, and places that serve in turn.
ghost use Rattle.std.specs.Prelude.{◌≡◌, ◌≤◌, ◌<◌, ◌+◌, ◌*◌, ◌%◌, length, sum_by};
ghost use Rattle.hpe_base.specs.Parameters.{flags_set};

/// The flags of a puncturing column that are set: the code bits that a step keeps, at most three.
#[inline]
pub fn flags_set(column: &[bool; 3]) -> usize
    ensures value { result ≡ flags_set column.now }
    ensures few { result ≤ 3 }
{
    column[0] as usize + column[1] as usize + column[2] as usize
}

/// The flags that are set in at most 12 puncturing columns: the code bits that a turn of them keeps.
pub fn flags_in_all(columns: &[[bool; 3]]) -> usize
    requires { length columns.now ≤ 12 }
    ensures value { result ≡ sum_by flags_set columns.now }
    ensures few { result ≤ 3 * length columns.now }
{
    let mut flags = 0;
    for column in columns {
        flags += flags_set(column);
    }
    flags
}

/// The place after this one in a list of that length, which is gone through again and again.
#[inline]
pub fn place_after(place: usize, length: usize) -> usize
    requires { place < length }
    ensures value { result ≡ (place + 1) % length }
    ensures within { result < length }
{
    if place + 1 < length { place + 1 } else { 0 }
}
