ghost use Rattle.std.specs.Prelude.{◌≡◌, length, IfOk};
ghost use Rattle.hpe_base.specs.Parameters.{codeword_bits};

use crate::{CodeTables, kept_length, moves_undo_each_other, outer_encode};
use hpe_base::CODE_BITS;
use std::alloc::{AllocError, Global};
use std::test::Fail;

#[test]
#[tactic(auto, unfolding(hpe_base::specs::Lists::joined))]
fn encodes_by_hand(rt: HostRuntime) {
    let mut whole = [0; 9];
    outer_encode(&[[true, true, true]], &[1, 0, 0], &mut whole);
    assert_eq!(rt; whole, [1, 1, 1, 0, 1, 1, 1, 1, 1]);
    let mut punctured = [0; 5];
    outer_encode(
        &[[true, true, false], [false, true, false]],
        &[1, 0, 0],
        &mut punctured,
    );
    assert_eq!(rt; punctured, [1, 1, 1, 1, 1]);
}

#[test]
fn counts_kept_bits(rt: HostRuntime) {
    assert_eq!(rt; kept_length(&[[true, true, true]], 5_040), 15_120);
    let two = [[true, true, false], [false, true, false]];
    assert_eq!(rt; kept_length(&two, 10_080), 15_120);
    assert_eq!(rt; kept_length(&two, 3), 5);
}

fn codeword<V: Copy>(alloc: Global, value: V) -> Result<Vec<V>, AllocError>
    ensures { IfOk result (λ v. length v.items ≡ codeword_bits) }
{
    vec![in alloc; value; CODE_BITS]
}

fn places(alloc: Global) -> Result<Vec<u16>, AllocError>
    ensures { IfOk result (λ v. length v.items ≡ codeword_bits) }
{
    let mut places = codeword(alloc, 0)?;
    for (place, value) in places.iter_mut().enumerate() {
        *value = place as u16;
    }
    Ok(places)
}

// The law meets the calls.
fn there_and_back<V: Copy>(tables: &CodeTables, first: &[V], moved: &mut [V], last: &mut [V])
    requires first { length first.now ≡ codeword_bits }
    requires moved { length moved.old ≡ codeword_bits }
    requires last { length last.old ≡ codeword_bits }
    ensures { last.new ≡ first.now }
{
    tables.interleave(first, moved);
    tables.deinterleave(moved, last);
    moves_undo_each_other::<V>();
}

#[test]
fn interleaves_places(rt: HostRuntime) -> Result<(), Fail> {
    let alloc = rt.alloc();
    let tables = CodeTables::new(alloc)?;
    assert_eq!(rt; tables.pi(0), 0);
    assert_eq!(rt; tables.pi(1), 221);
    assert_eq!(rt; tables.pi(2), 862);
    assert_eq!(rt; tables.pi(15_119), 199);
    assert_eq!(rt; tables.pi_inverse(199), 15_119);
    assert_eq!(rt; tables.pi_inverse(96), 8_256);
    let places = places(alloc)?;
    let mut moved = codeword(alloc, 0)?;
    let mut back = codeword(alloc, 0)?;
    there_and_back(&tables, &places, &mut moved, &mut back);
    assert!(rt; moved.starts_with(&[0, 221, 862]));
    assert!(rt; moved.ends_with(&[199]));
    assert!(rt; back == places);
    Ok(())
}

#[test]
fn interleaves_bits(rt: HostRuntime) -> Result<(), Fail> {
    let alloc = rt.alloc();
    let tables = CodeTables::new(alloc)?;
    let mut bits = codeword(alloc, 0_u8)?;
    bits[221] = 1;
    let mut moved = codeword(alloc, 0_u8)?;
    tables.interleave(&bits, &mut moved);
    assert!(rt; moved.starts_with(&[0, 1, 0]));
    Ok(())
}
