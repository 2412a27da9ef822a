ghost use Rattle.std.specs.Prelude.{◌≡◌, ◌≤◌, ◌+◌, ◌*◌, length};

use crate::{FrameFeed, FrameScan};
use hpe_base::{Fields, Profile};
use hpe_io::{Failed, MemSink};
use std::alloc::{AllocError, AllocGlobal};
use std::process::Abort;
use std::test::Fail;

/// The frame marker of the built-in profile, 1ACFFC1D.
const MARKER: [u8; 32] = [
    0, 0, 0, 1, 1, 0, 1, 0, // 1A
    1, 1, 0, 0, 1, 1, 1, 1, // CF
    1, 1, 1, 1, 1, 1, 0, 0, // FC
    0, 0, 0, 1, 1, 1, 0, 1, // 1D
];

/// Feeds so many octets that are 0, and counts the frames that they complete.
fn feed_zeros(feed: &mut FrameFeed, count: u32) -> u32
    ensures { feed.new.parameters ≡ feed.old.parameters }
{
    let mut frames = 0;
    for _ in 0..count {
        if feed.feed(0) {
            frames += 1;
        }
    }
    frames
}

#[test]
fn ends_of_frames(rt: HostRuntime) -> Result<(), Fail> {
    let mut feed = FrameFeed::new(rt.alloc(), &Profile::basic())?;
    assert_eq!(rt; feed.rest(), 0);
    for (octets, frames, rest) in [(99, 0, 99), (1, 1, 0), (99, 0, 99), (1, 1, 0), (1, 0, 1)] {
        assert_eq!(rt; feed_zeros(&mut feed, octets), frames);
        assert_eq!(rt; feed.rest(), rest);
    }
    Ok(())
}

#[test]
fn bits_of_a_frame(rt: HostRuntime) -> Result<(), Fail> {
    let mut feed = FrameFeed::new(rt.alloc(), &Profile::basic())?;
    feed_zeros(&mut feed, 7);
    feed.feed(0x10);
    feed_zeros(&mut feed, 91);
    let whole = feed.feed(0);
    assert!(rt; whole);
    for (i, bit) in MARKER.iter().enumerate() {
        assert_eq!(rt; feed.bit(i), *bit);
    }
    for (i, bit) in [(2, 0), (3, 1), (4, 0)] {
        assert_eq!(rt; feed.bit(32 + 8 * 7 + i), bit);
    }
    Ok(())
}

/// A valid profile of frames of one octet with that frame marker.
fn frames_of_one(frame_marker: i64) -> Result<Profile, Fail> {
    let p = Profile::new(&Fields {
        frame_octets: 1,
        frame_marker,
        marker: &[0],
        ..Fields::basic()
    })?;
    Ok(p)
}

#[test]
fn frames_of_one_octet(rt: HostRuntime) -> Result<(), Fail> {
    let p = frames_of_one(0x8000_0001)?;
    let mut feed = FrameFeed::new(rt.alloc(), &p)?;
    for (octet, bits) in [
        (0xA1, [1, 0, 1, 0, 0, 0, 0, 1]),
        (0x1E, [0, 0, 0, 1, 1, 1, 1, 0]),
    ] {
        let whole = feed.feed(octet);
        assert!(rt; whole);
        for (i, bit) in bits.iter().enumerate() {
            assert_eq!(rt; feed.bit(32 + i), *bit);
        }
        assert_eq!(rt; feed.rest(), 0);
    }
    Ok(())
}

/// The bits of a block at the built-in profile.
const BLOCK_BITS: usize = 5_006;

/// The bits of the block of that number.
fn block_of(bits: &[u8], number: usize) -> &[u8]
    requires { (number + 1) * 5006 ≤ length bits.now }
    ensures { length result.now ≡ 5006 }
{
    let first = number * BLOCK_BITS;
    &bits[first..first + BLOCK_BITS]
}

/// Scans the blocks of these bits, of which those that are not known are lost, and compares how many frames each gives.
fn scan_blocks<T: Abort + AllocGlobal>(
    rt: &T,
    bits: &[u8],
    blocks: &[(bool, u32)],
    sink: &mut MemSink,
) -> Result<(), Fail> {
    let mut scan = FrameScan::new(rt.alloc(), &Profile::basic())?;
    for (number, (known, frames)) in blocks.iter().enumerate() {
        assert!(rt; number < 10 && (number + 1) * BLOCK_BITS <= bits.len());
        let block = if *known {
            Some(block_of(bits, number))
        } else {
            None
        };
        assert_eq!(rt; scan.block(block, sink), Ok(*frames));
    }
    Ok(())
}

#[test]
fn no_frame(rt: HostRuntime) -> Result<(), Fail> {
    let mut sink = MemSink::new(rt.alloc(), 1_000, &[])?;
    let zeros = [0; 2 * BLOCK_BITS];
    scan_blocks(&rt, &zeros, &[(true, 0), (false, 0)], &mut sink)?;
    assert!(rt; sink.bytes().is_empty());
    Ok(())
}

/// A block that begins with a frame of zeros.
fn frame_of_zeros() -> [u8; BLOCK_BITS] {
    let mut block = [0; BLOCK_BITS];
    block[..32].copy_from_slice(&MARKER);
    block
}

#[test]
fn frame_in_a_block(rt: HostRuntime) -> Result<(), Fail> {
    let mut scan = FrameScan::new(rt.alloc(), &Profile::basic())?;
    let mut sink = MemSink::new(rt.alloc(), 1_000, &[])?;
    assert_eq!(rt; scan.block(Some(&frame_of_zeros()), &mut sink), Ok(1));
    assert_eq!(rt; scan.frames(), 1);
    assert!(rt; !scan.spent());
    assert_eq!(rt; sink.bytes(), [0; 100].as_slice());
    Ok(())
}

#[test]
fn sink_that_fails(rt: HostRuntime) -> Result<(), Fail> {
    let mut scan = FrameScan::new(rt.alloc(), &Profile::basic())?;
    let mut sink = MemSink::new(rt.alloc(), 1_000, &[0])?;
    assert_eq!(rt; scan.block(Some(&frame_of_zeros()), &mut sink), Err(Failed));
    assert!(rt; scan.spent());
    assert_eq!(rt; scan.frames(), 0);
    assert_eq!(rt; sink.bytes(), [0; 50].as_slice());
    Ok(())
}

/// Appends a frame with its marker.
fn append_frame(bits: &mut Vec<u8>, octets: &[u8; 100]) -> Result<(), AllocError> {
    bits.extend_from_slice(&MARKER)?;
    for octet in octets {
        for place in (0..8_u32).rev() {
            bits.push(*octet >> place & 1)?;
        }
    }
    Ok(())
}

#[test]
fn frames_around_a_lost_block(rt: HostRuntime) -> Result<(), Fail> {
    // thirty frames, each of octets that are its number, fill five blocks but for 70 bits
    let mut bits = Vec::new(rt.alloc());
    for number in 0..30_u8 {
        append_frame(&mut bits, &[number; 100])?;
    }
    assert_eq!(rt; bits.len(), 24_960);
    bits.resize(5 * BLOCK_BITS, 0)?;
    let mut sink = MemSink::new(rt.alloc(), 10_000, &[])?;
    let blocks = [(true, 6), (true, 6), (false, 0), (true, 5), (true, 6)];
    scan_blocks(&rt, &bits, &blocks, &mut sink)?;
    assert_eq!(rt; sink.bytes().len(), 2_300);
    // the lost block has bits of frames 12 to 18
    for (octets, number) in sink.bytes().chunks_exact(100).zip((0..12).chain(19..30)) {
        assert_eq!(rt; octets, [number; 100].as_slice());
    }
    Ok(())
}

/// The octets of a frame that has the frame marker among them.
fn decoy() -> [u8; 100] {
    let mut octets = [0; 100];
    octets[50..54].copy_from_slice(&[0x1A, 0xCF, 0xFC, 0x1D]);
    octets
}

#[test]
fn marker_inside_of_a_frame(rt: HostRuntime) -> Result<(), Fail> {
    // eighteen frames fill three blocks but for 42 bits
    let mut bits = Vec::new(rt.alloc());
    for _number in 0..18 {
        append_frame(&mut bits, &decoy())?;
    }
    assert_eq!(rt; bits.len(), 14_976);
    bits.resize(3 * BLOCK_BITS, 0)?;
    let mut sink = MemSink::new(rt.alloc(), 10_000, &[])?;
    // frame 12 begins in the lost block; what stands from the marker among its octets on is no frame
    scan_blocks(&rt, &bits, &[(true, 6), (false, 0), (true, 5)], &mut sink)?;
    assert_eq!(rt; sink.bytes().len(), 1_100);
    for octets in sink.bytes().chunks_exact(100) {
        assert_eq!(rt; octets, decoy().as_slice());
    }
    Ok(())
}
