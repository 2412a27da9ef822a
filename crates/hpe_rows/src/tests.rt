ghost use Rattle.std.specs.Prelude.{◌≡◌, ◌≤◌, length};

use crate::{Rows, Taken};
use hpe_base::{Fields, Order, Profile};
use std::alloc::Global;
use std::process::Abort;
use std::test::Fail;

/// The slots of a symbol, of which each is sent twice, and those of a period, with a marker of one symbol.
const SYMBOL: usize = 10;

const PERIOD: usize = 75_610;

/// Counts at which the sums of the two sendings of symbol n are 8 n + 1, 8 n + 3, 8 n + 5 and 8 n + 7, with n counted
/// from the marker on and begun anew at 50. A guard slot has more than all of them.
fn counts(alloc: Global, length: usize) -> Result<Vec<u16>, Fail> {
    let mut counts = Vec::new(alloc);
    for place in 0..length {
        let symbol = (place / SYMBOL % 50) as u16;
        let sending = (place % SYMBOL / 5) as u16;
        let position = (place % 5) as u16;
        counts.push(if position == 4 {
            9_999
        } else {
            4 * symbol + position + sending
        })?;
    }
    Ok(counts)
}

/// Takes counts, and answers what was taken.
fn take<R: Abort>(rt: &R, rows: &mut Rows, p: &Profile, counts: &[u16], into: &mut [u16]) -> Taken
    requires { rows.old.parameters ≡ p.now }
    ensures profile { rows.new.parameters ≡ p.now }
    ensures within { result.counts ≤ length counts.now }
{
    assert!(rt; !counts.is_empty() && into.len() == p.order().slots());
    rows.take(counts, into)
}

/// What came of counts: the sums of the rows, the places where periods end, and how much is held at last.
#[derive(Drop)]
struct Came {
    sums: Vec<u16>,
    ends: Vec<usize>,
    held: u64,
}

/// What comes of counts in pieces of this size.
fn in_pieces<R: Abort>(
    rt: &R,
    alloc: Global,
    p: &Profile,
    counts: &[u16],
    size: usize,
) -> Result<Came, Fail> {
    let mut rows = Rows::new(alloc, p)?;
    let mut into = [0; 4];
    let mut sums = Vec::new(alloc);
    let mut ends = Vec::new(alloc);
    let mut place: usize = 0;
    for _ in 0..counts.len() {
        let rest = &counts[place.min(counts.len())..];
        let piece = &rest[..rest.len().min(size)];
        if piece.is_empty() {
            break;
        }
        let taken = take(rt, &mut rows, p, piece, &mut into);
        place = place.saturating_add(taken.counts);
        if taken.row {
            sums.extend_from_slice(&into)?;
        }
        if taken.ended {
            ends.push(place)?;
        }
    }
    Ok(Came {
        sums,
        ends,
        held: rows.held(),
    })
}

#[test]
fn any_cutting(rt: HostRuntime) -> Result<(), Fail> {
    let p = Profile::new(&Fields {
        order: 4,
        rows: 2,
        marker: &[2],
        repeat: 2,
        ..Fields::basic()
    })?;
    assert!(rt; p.order() == Order::P4 && p.symbol_slots() == SYMBOL);
    // a period, and the marker and seven counts of the first symbol of the next
    let counts = counts(rt.alloc(), PERIOD + SYMBOL + 7)?;
    for size in [1, 7, 10, 100_000] {
        let came = in_pieces(&rt, rt.alloc(), &p, &counts, size)?;
        // of 7,560 rows two wait, and a row of odd number comes two rows late
        assert_eq!(rt; came.sums.len(), 7_558 * 4);
        let first = [
            9, 11, 13, 15, 33, 35, 37, 39, 25, 27, 29, 31, 49, 51, 53, 55,
        ];
        assert_eq!(rt;
            came.sums.get(..16),
            Some(first.as_slice()),
            "pieces of {size}"
        );
        assert_eq!(rt; came.sums.last(), Some(&87));
        assert_eq!(rt; came.ends.as_slice(), [PERIOD].as_slice());
        assert_eq!(rt; came.held, 7 + 4);
    }
    Ok(())
}
