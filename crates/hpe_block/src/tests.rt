ghost use Rattle.std.specs.Prelude.{◌≡◌, ◌<◌, length};
ghost use Rattle.hpe_base.specs.Bits.{AreBits};
ghost use Rattle.hpe_base.specs.Parameters.{code_steps};
ghost use Rattle.hpe_base.specs.Parameters.{information_bits};

use crate::{Slicer, check_of, close_block, open_block, randomise};
use hpe_base::Profile;
use hpe_base::bits::write_bits;
use std::test::Fail;

/// The pseudo-random sequence of the built-in profile begins with these five octets.
const SEQUENCE: [u8; 40] = [
    1, 1, 1, 1, 1, 1, 1, 1, // FF
    0, 1, 0, 0, 1, 0, 0, 0, // 48
    0, 0, 0, 0, 1, 1, 1, 0, // 0E
    1, 1, 0, 0, 0, 0, 0, 0, // C0
    1, 0, 0, 1, 1, 0, 1, 0, // 9A
];

/// So many bits that are all the same.
fn same_bits<const N: usize>(bit: u8) -> [u8; N]
    requires { bit < 2 }
    ensures length { length result ≡ N }
    ensures bits { AreBits result }
{
    [bit; N]
}

#[test]
fn checks_by_hand(rt: HostRuntime) {
    let generator = Profile::basic().check();
    assert_eq!(rt; check_of(generator, &[]), 0xFFFF_FFFF);
    assert_eq!(rt; check_of(generator, &[1]), 0xFFFF_FFFE);
    assert_eq!(rt; check_of(generator, &[0]), 0xDFFB_BFF7);
    assert_eq!(rt; check_of(generator, &same_bits::<8>(0)), 0x9C4B_38FB);
    assert_eq!(rt; check_of(generator, &same_bits::<32>(1)), 0);
    assert_eq!(rt; check_of(generator, &same_bits::<33>(1)), generator);
}

#[test]
fn randomises_and_back(rt: HostRuntime) {
    let p = Profile::basic();
    let mut zeros = same_bits::<40>(0);
    randomise(&p, &mut zeros);
    assert_eq!(rt; zeros, SEQUENCE);
    for (plain, mixed) in [(0, 0xFF48_0EC0), (0x1ACF_FC1D, 0xE587_F2DD)] {
        let mut bits = [0; 32];
        let mut expected = [0; 32];
        write_bits(plain, &mut bits);
        randomise(&p, &mut bits);
        write_bits(mixed, &mut expected);
        assert_eq!(rt; bits, expected);
        randomise(&p, &mut bits);
        write_bits(plain, &mut expected);
        assert_eq!(rt; bits, expected);
    }
}

#[test]
fn closes_a_block(rt: HostRuntime) {
    let block = same_bits::<5_006>(0);
    let mut closed = same_bits::<5_040>(0);
    close_block(&Profile::basic(), &block, &mut closed);
    assert!(rt; closed.starts_with(&SEQUENCE));
    assert!(rt; closed.ends_with(&[0, 0]));
}

/// A closed block without its termination, which is what is decoded of it.
fn word_of<'a>(p: &Profile, closed: &'a [u8]) -> &'a [u8]
    requires bits { AreBits closed.now }
    requires length { length closed.now ≡ code_steps p.now.rate }
    ensures bits { AreBits result.now }
    ensures length { length result.now ≡ information_bits p.now.rate }
{
    &closed[..p.rate().steps() - 2]
}

/// Flips one bit.
fn flip(bits: &mut [u8], place: usize)
    requires bits { AreBits bits.old }
    requires place { place < length bits.old }
    ensures bits { AreBits bits.new }
{
    bits[place] = if bits[place] == 0 { 1 } else { 0 };
}

#[test]
fn opens_a_closed_block(rt: HostRuntime) {
    let p = Profile::basic();
    let block = same_bits::<5_006>(1);
    let mut closed = same_bits::<5_040>(0);
    close_block(&p, &block, &mut closed);
    let mut opened = same_bits::<5_006>(0);
    let right = open_block(&p, word_of(&p, &closed), &mut opened);
    assert!(rt; right.is_some());
    assert!(rt; opened == block);
    flip(&mut closed, 5_005);
    let right = open_block(&p, word_of(&p, &closed), &mut opened);
    assert!(rt; right.is_none());
    assert!(rt; opened == block);
}

/// Pushes so many bits that are 0, and counts the blocks that they complete.
fn push_zeros(slicer: &mut Slicer, count: u32) -> u32
    ensures { slicer.new.parameters ≡ slicer.old.parameters }
{
    let mut blocks = 0;
    for _ in 0..count {
        if slicer.push(0) {
            blocks += 1;
        }
    }
    blocks
}

#[test]
fn ends_of_blocks(rt: HostRuntime) -> Result<(), Fail> {
    let mut slicer = Slicer::new(rt.alloc(), &Profile::basic())?;
    for (bits, blocks) in [(5_005, 0), (1, 1), (5_005, 0), (1, 1), (1, 0)] {
        assert_eq!(rt; push_zeros(&mut slicer, bits), blocks);
    }
    Ok(())
}

#[test]
fn fills_a_block(rt: HostRuntime) -> Result<(), Fail> {
    let mut slicer = Slicer::new(rt.alloc(), &Profile::basic())?;
    let begun = slicer.pad();
    assert!(rt; !begun);
    push_zeros(&mut slicer, 5_005);
    let whole = slicer.push(1);
    assert!(rt; whole);
    assert!(rt; slicer.block().starts_with(&same_bits::<5_005>(0)));
    assert!(rt; slicer.block().ends_with(&[1]));
    let begun = slicer.pad();
    assert!(rt; !begun);
    slicer.push(1);
    let begun = slicer.pad();
    assert!(rt; begun);
    assert!(rt; slicer.block().starts_with(&[1]));
    assert!(rt; slicer.block().ends_with(&same_bits::<5_005>(0)));
    Ok(())
}
