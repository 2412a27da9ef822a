use crate::{Finder, Found};
use hpe_base::{Fields, Profile};
use std::test::Fail;

/// The slots of a period of the built-in profile: 3,796 symbols of 20 slots.
const PERIOD: usize = 75_920;

/// The pulses of its marker, in slots from where the marker begins.
const PULSES: [usize; 16] = [
    0, 25, 55, 74, 82, 111, 129, 152, 164, 181, 203, 230, 246, 267, 293, 308,
];

/// The built-in marker.
const MARKER_16: [i64; 16] = [0, 5, 15, 14, 2, 11, 9, 12, 4, 1, 3, 10, 6, 7, 13, 8];

/// A marker at order 4.
const MARKER_4: [i64; 16] = [0, 1, 2, 3, 0, 1, 2, 3, 0, 1, 2, 3, 0, 1, 2, 3];

/// A profile at rate 1/3.
fn profile(order: i64, marker: &[i64], repeat: i64, search: i64) -> Result<Profile, Fail> {
    let p = Profile::new(&Fields {
        order,
        marker,
        repeat,
        search,
        ..Fields::basic()
    })?;
    Ok(p)
}

/// Puts a marker of single counts at a place.
fn put_marker(counts: &mut [u16], start: usize) {
    for pulse in PULSES {
        if let Some(count) = counts.get_mut(start.saturating_add(pulse)) {
            *count = 1;
        }
    }
}

/// A finder that was fed the counts, as far as it has room.
fn fed(rt: &HostRuntime, p: &Profile, counts: &[u16]) -> Result<Finder, Fail> {
    let mut finder = Finder::new(rt.alloc(), p)?;
    let many = counts.len().min(finder.room());
    finder.feed(&counts[..many]);
    Ok(finder)
}

#[test]
fn marker_at_the_start(rt: HostRuntime) -> Result<(), Fail> {
    let p = Profile::basic();
    assert_eq!(rt; Finder::new(rt.alloc(), &p)?.room(), 76_240);
    let mut counts = vec![in rt.alloc(); 0u16; PERIOD]?;
    put_marker(&mut counts, 0);
    let finder = fed(&rt, &p, &counts)?;
    assert_eq!(rt; finder.counts().len(), PERIOD);
    assert_eq!(rt; finder.room(), 320);
    assert_eq!(rt; finder.look(), Found::Need);
    assert_eq!(rt;
        finder.finish(),
        Found::At {
            offset: 0,
            score: 16,
        }
    );
    Ok(())
}

#[test]
fn no_light(rt: HostRuntime) -> Result<(), Fail> {
    let p = Profile::basic();
    for (slots, found) in [(PERIOD, Found::Dark), (PERIOD - 1, Found::Short)] {
        let counts = vec![in rt.alloc(); 0u16; slots]?;
        let finder = fed(&rt, &p, &counts)?;
        assert_eq!(rt; finder.finish(), found);
    }
    Ok(())
}

#[test]
fn bright_everywhere(rt: HostRuntime) -> Result<(), Fail> {
    let p = profile(4, &MARKER_4, 32, 1)?;
    let counts = vec![in rt.alloc(); 255u16; 1_212_160]?;
    let finder = fed(&rt, &p, &counts)?;
    assert_eq!(rt;
        finder.finish(),
        Found::At {
            offset: 0,
            score: 130_560,
        }
    );
    Ok(())
}

#[test]
fn marker_at_the_last_offset(rt: HostRuntime) -> Result<(), Fail> {
    let p = profile(16, &MARKER_16, 1, 2)?;
    let mut counts = vec![in rt.alloc(); 0u16; 2 * PERIOD + 320]?;
    put_marker(&mut counts, PERIOD - 1);
    put_marker(&mut counts, 2 * PERIOD - 1);
    let finder = fed(&rt, &p, &counts)?;
    assert_eq!(rt;
        finder.look(),
        Found::At {
            offset: 75_919,
            score: 32,
        }
    );
    Ok(())
}
