//! The best word and its check on numbers worked out by hand, and a record that is refused for each cause.
ghost use Rattle.std.specs.Prelude.{◌≡◌, ◌<◌, ◌+◌, length, IfOk};
ghost use Rattle.hpe_base.specs.Bits.{AreBits};
ghost use Rattle.hpe_base.specs.Parameters.{codeword_bits, code_steps, information_bits};
ghost use Rattle.hpe_base.specs.ConvolutionalCode.{AreColumns};
ghost use Rattle.hpe_witness.specs.Potentials.{potential_most, PotentialsWithin};
ghost use Rattle.hpe_witness.specs.Record.{record_octets};

use crate::audit::{POTENTIAL_MOST, are_within, potentials_are_within};
use crate::record::{BITS, NUMBERS, ROW_OCTETS, rows_place};
use crate::{
    AuditDesk, PathFault, Refusal, best_path, check_path, check_record, record_octets, write_record,
};
use hpe_base::{CLAMP, CODE_BITS, Profile};
use hpe_code::kept_length;
use std::alloc::{AllocError, Global};
use std::process::Abort;
use std::test::Fail;

/// The column that keeps all outputs.
const ALL: [[bool; 3]; 1] = [[true; 3]];

/// The best word of lists that are as long as they have to be.
fn best<R: Abort>(
    rt: &R,
    columns: &[[bool; 3]],
    l: &[i32],
    u: &mut [u8],
    rows: &mut [[i32; 4]],
) -> i32
    requires { AreColumns columns.now }
    ensures bits { AreBits u.new }
    ensures size { PotentialsWithin potential_most rows.new }
{
    assert!(rt; 2 <= u.len() && u.len() <= 10_078 && rows.len() == u.len() + 3);
    let size = kept_length(columns, u.len() + 2);
    assert!(rt; l.len() == size && size <= CODE_BITS && are_within(u32::from(CLAMP), l));
    best_path(columns, l, u, rows)
}

/// The answer for such lists, where all outputs are kept.
fn checked<R: Abort>(rt: &R, l: &[i32], u: &[u8], rows: &[[i32; 4]]) -> Result<i32, PathFault> {
    assert!(rt; 2 <= u.len() && u.len() <= 10_078 && rows.len() == u.len() + 3);
    let size = kept_length(&ALL, u.len() + 2);
    assert!(rt; l.len() == size && size <= CODE_BITS && are_within(u32::from(CLAMP), l));
    assert!(rt; u.iter().all(|bit| *bit < 2) && potentials_are_within(POTENTIAL_MOST, rows));
    check_path(&ALL, l, u, rows)
}

#[test]
fn two_free_bits(rt: HostRuntime) {
    let l = [1, 1, 1, 0, 0, 0, 0, 0, 0, 0, 0, 0];
    let mut u = [7; 2];
    let mut rows = [[7; 4]; 5];
    assert_eq!(rt; best(&rt, &ALL, &l, &mut u, &mut rows), 3);
    assert_eq!(rt; u, [1, 0]);
    assert_eq!(rt; rows[1], [0, -499_999_998, 3, -499_999_998]);
    assert_eq!(rt; rows[2], [0, 3, 0, 3]);
    assert_eq!(rt; rows[3], [3; 4]);
    assert_eq!(rt; rows[4][0], 3);
    assert!(rt; checked(&rt, &l, &u, &rows) == Ok(3));
    assert!(rt; checked(&rt, &l, &[0, 0], &rows) == Err(PathFault::Score));
    rows[4][0] = 2;
    assert!(rt; checked(&rt, &l, &u, &rows) == Err(PathFault::Step));
    rows[0][0] = 1;
    assert!(rt; checked(&rt, &l, &u, &rows) == Err(PathFault::Start));
}

#[test]
fn of_words_that_score_as_much_the_first_is_best(rt: HostRuntime) {
    let mut u = [7; 3];
    let mut rows = [[7; 4]; 6];
    assert_eq!(rt; best(&rt, &ALL, &[0; 15], &mut u, &mut rows), 0);
    assert_eq!(rt; u, [0; 3]);
}

/// So many times -1 as a codeword has code bits.
fn minus_ones(alloc: Global) -> Result<Vec<i32>, AllocError>
    ensures { IfOk result (λ l. length l.items ≡ codeword_bits) }
{
    vec![in alloc; -1; CODE_BITS]
}

/// Writes the best word for the a-priori numbers and its potentials, and their record as word 7. Gives the score.
fn record_best<R: Abort>(
    rt: &R,
    p: &Profile,
    l: &[i32],
    u: &mut [u8],
    rows: &mut [[i32; 4]],
    octets: &mut [u8],
) -> i32
    requires l { length l.now ≡ codeword_bits }
    requires u { length u.old ≡ information_bits p.now.rate }
    requires rows { length rows.old ≡ code_steps p.now.rate + 1 }
    requires octets { length octets.old ≡ record_octets p.now.rate }
{
    let score = best(rt, p.columns(), l, u, rows);
    assert!(rt; are_within(u32::from(CLAMP), l));
    write_record(p, 7, l, u, rows, octets);
    score
}

/// The record of the word of zeros, which scores 0 where each a-priori number is -1, and each other word less.
fn record_of_zeros<R: Abort>(rt: &R, alloc: Global, p: &Profile) -> Result<Vec<u8>, AllocError>
    ensures { IfOk result (λ octets. length octets.items ≡ record_octets p.now.rate) }
{
    let l = minus_ones(alloc)?;
    let mut u = vec![in alloc; 1; p.rate().information()]?;
    let mut rows = vec![in alloc; [1; 4]; p.rate().steps() + 1]?;
    let mut octets = vec![in alloc; 0xAA; record_octets(p.rate())]?;
    let score = record_best(rt, p, &l, &mut u, &mut rows, &mut octets);
    assert_eq!(rt; score, 0);
    Ok(octets)
}

/// The answer for a record whose octet at a place was changed.
fn changed(
    p: &Profile,
    octets: &mut [u8],
    desk: &mut AuditDesk,
    at: usize,
    octet: u8,
) -> Result<(u32, i32), Refusal>
    requires octets { length octets.old ≡ record_octets p.now.rate }
    requires desk { desk.old ≡ p.now }
    requires at { at < length octets.old }
    ensures { desk.new ≡ desk.old }
{
    octets[at] = octet;
    check_record(p, octets, desk)
}

/// Changes the record in one place after the other, so that each refusal hides the one before.
fn refusals<R: Abort>(rt: &R, p: &Profile, octets: &mut [u8], desk: &mut AuditDesk)
    requires octets { length octets.old ≡ record_octets p.now.rate }
    requires desk { desk.old ≡ p.now }
{
    let rows = rows_place(p.rate());
    let last_row = rows + ROW_OCTETS * p.rate().steps();
    let score = Refusal::Path(PathFault::Score);
    let step = Refusal::Path(PathFault::Step);
    let start = Refusal::Path(PathFault::Start);
    assert!(rt; changed(p, octets, desk, BITS, 128) == Err(score));
    assert!(rt; changed(p, octets, desk, last_row, 255) == Err(step));
    assert!(rt; changed(p, octets, desk, rows + 3, 1) == Err(start));
    assert!(rt; changed(p, octets, desk, rows - 1, 1) == Err(Refusal::Pad));
    assert!(rt; changed(p, octets, desk, NUMBERS, 64) == Err(Refusal::Range));
    assert!(rt; changed(p, octets, desk, 0, 0) == Err(Refusal::Mark));
}

#[test]
fn a_changed_record_is_refused(rt: HostRuntime) -> Result<(), Fail> {
    let alloc = rt.alloc();
    let p = Profile::basic();
    let mut octets = record_of_zeros(&rt, alloc, &p)?;
    let mut desk = AuditDesk::new(alloc, &p)?;
    assert!(rt; check_record(&p, &octets, &mut desk) == Ok((7, 0)));
    refusals(&rt, &p, &mut octets, &mut desk);
    Ok(())
}
