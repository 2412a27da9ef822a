//! Profiles that words name.

use super::{Given, ONE_SENT, one_frame, sound, written, zeros};
use crate::ending::Status;
use std::alloc::Global;
use std::test::Fail;

/// So many octets, of which octet `n` is `n` modulo 251.
fn counting(alloc: Global, count: usize) -> Result<Vec<u8>, Fail> {
    let mut octets = zeros(alloc, count)?;
    for (n, octet) in octets.iter_mut().enumerate() {
        *octet = (n % 251) as u8;
    }
    Ok(octets)
}

#[test]
fn links_of_other_profiles(rt: HostRuntime) -> Result<(), Fail> {
    // Order 128 through an interleaver of 60 rows: three words, and two that flush it.
    let deep: Option<&[u8]> = Some(b"order = 128\nrate = \"2/3\"\nrows = 60\n");
    let octets = counting(rt.alloc(), 3_000)?;
    let send = Given {
        profile: deep,
        ..sound(&["hpe", "encode", "--profile", "p.toml"])
    };
    let slots = written(
        &rt,
        &send,
        &octets,
        Status::Done,
        "frames 30 words 3 slots 1740800\n",
    )?;
    assert_eq!(rt; slots.len(), 1_740_800);
    let receive = Given {
        profile: deep,
        ..sound(&["hpe", "decode", "--profile=p.toml"])
    };
    let kept =
        "word 0 kept 1\nword 1 kept 1\nword 2 kept 1\nwords 3 kept 3 lost 0 frames 30 lead 0 tail 0\n";
    let frames = written(&rt, &receive, &slots, Status::Done, kept)?;
    assert_eq!(rt; frames.as_slice(), octets.as_slice());

    // Order 4, each symbol sent 32 times: one period in which every offset ties.
    let near: Option<&[u8]> = Some(b"order = 4\nrate = \"1/3\"\nrepeat = 32\n");
    let receive = Given {
        profile: near,
        ..sound(&["hpe", "decode", "--profile", "p.toml"])
    };
    let counts = vec![in rt.alloc(); 255; 1_212_160]?;
    let lost = "word 0 lost\nwords 1 kept 0 lost 1 frames 0 lead 0 tail 0\n";
    let frames = written(&rt, &receive, &counts, Status::WordsLost, lost)?;
    assert!(rt; frames.is_empty());
    Ok(())
}

#[test]
fn counts_of_two_octets(rt: HostRuntime) -> Result<(), Fail> {
    let wide: Option<&[u8]> = Some(b"order = 16\nrate = \"1/3\"\ncount_octets = 2\n");
    let frame = zeros(rt.alloc(), 100)?;
    let slots = one_frame(&rt)?;
    let mut wider = Vec::new(rt.alloc());
    for slot in &slots {
        wider.push(0)?;
        wider.push(*slot)?;
    }
    let send = Given {
        profile: wide,
        ..sound(&["hpe", "encode", "--profile", "p.toml"])
    };
    let sent = written(&rt, &send, &frame, Status::Done, ONE_SENT)?;
    assert_eq!(rt; sent.as_slice(), wider.as_slice());
    wider.push(9)?;
    let receive = Given {
        profile: wide,
        ..sound(&["hpe", "decode", "--profile", "p.toml"])
    };
    let kept = "word 0 kept 1\nwords 1 kept 1 lost 0 frames 1 lead 0 tail 0\n";
    let odd = "word 0 kept 1\nwords 1 kept 1 lost 0 frames 1 lead 0 tail 1\n";
    let half = "words 0 kept 0 lost 0 frames 0 lead 0 tail 1\n";
    let cases: [(u32, &[u8], &str, usize); 4] = [
        (65_536, &sent, kept, 100),
        (65_536, &wider, odd, 100),
        // Takes that end within a count.
        (4_097, &wider, odd, 100),
        (65_536, &[1], half, 0),
    ];
    for (piece, octets, told, size) in &cases {
        let receive = Given {
            piece: *piece,
            ..receive
        };
        let frames = written(&rt, &receive, octets, Status::Done, told)?;
        assert_eq!(rt; frames.as_slice(), zeros(rt.alloc(), *size)?.as_slice());
    }
    Ok(())
}

#[test]
fn measures_of_profiles(rt: HostRuntime) -> Result<(), Fail> {
    let basic =
        "order 16 rate 1/3 steps 5040 block 5006 symbols 3780 marker 16 period 75920 depth 0 flush 0\n";
    let downlink =
        "order 64 rate 1/2 steps 7560 block 7526 symbols 2520 marker 16 period 202880 depth 13200 flush 6\n";
    let plain = sound(&["hpe", "geometry"]);
    let named = sound(&["hpe", "geometry", "--profile", "p.toml"]);
    let link = Given {
        profile: Some(b"order = 64\nrate = \"1/2\"\nframe_octets = 1115\nrows = 12\ndelay = 100\n"),
        ..named
    };
    let cases: [(Given, Status, &str, &str); 7] = [
        // A shelf that fails, and isn't asked.
        (
            Given {
                fetches: &[0],
                ..plain
            },
            Status::Done,
            basic,
            "",
        ),
        (
            Given { room: 8, ..plain },
            Status::WriteFault,
            "order 16",
            "write fault\n",
        ),
        (link, Status::Done, downlink, ""),
        (
            Given {
                fetches: &[1],
                ..link
            },
            Status::Done,
            downlink,
            "",
        ),
        (named, Status::ProfileAbsent, "", "profile not found\n"),
        (
            Given {
                fetches: &[0],
                ..link
            },
            Status::ShelfFault,
            "",
            "profile not read\n",
        ),
        (
            Given {
                fetches: &[0],
                ..named
            },
            Status::ShelfFault,
            "",
            "profile not read\n",
        ),
    ];
    for (given, status, output, told) in &cases {
        // The input fails at its first take, which none of these does.
        let given = Given {
            takes: &[0],
            ..*given
        };
        let some = written(&rt, &given, &[0], *status, told)?;
        assert_eq!(rt; some.as_slice(), output.as_bytes());
    }
    Ok(())
}

#[test]
fn texts_of_profiles(rt: HostRuntime) -> Result<(), Fail> {
    let longest = zeros(rt.alloc(), 65_536)?;
    let longer = zeros(rt.alloc(), 65_537)?;
    let cases: [(&[u8], Status, &str); 12] = [
        (&longer, Status::ProfileTooLong, "profile too long\n"),
        (&longest, Status::BadProfile, "bad profile: text\n"),
        (b"order = ", Status::BadProfile, "bad profile: text\n"),
        (
            b"order = 16",
            Status::BadProfile,
            "bad profile: missing rate\n",
        ),
        (b"row = 1", Status::BadProfile, "bad profile: unknown key\n"),
        (
            b"order = true",
            Status::BadProfile,
            "bad profile: kind of order\n",
        ),
        (
            b"order = 16\nrate = \"1/4\"",
            Status::BadProfile,
            "bad profile: range of rate\n",
        ),
        (
            b"order = 16\nrate = \"1/3\"\nrows = 65",
            Status::BadProfile,
            "bad profile: range of rows\n",
        ),
        (
            b"order = 16\nrate = \"1/3\"\nrows = 11",
            Status::BadProfile,
            "bad profile: rule rows divide\n",
        ),
        (
            b"order = 16\nrate = \"1/3\"\nmarker = []",
            Status::BadProfile,
            "bad profile: range of marker\n",
        ),
        (
            b"order = 16\nrate = \"1/3\"\ncount_octets = 3",
            Status::BadProfile,
            "bad profile: range of count_octets\n",
        ),
        (
            b"order = 16\nrate = \"1/3\"\ncount_octets = 2",
            Status::Done,
            "",
        ),
    ];
    for (text, status, told) in &cases {
        let named = Given {
            profile: Some(*text),
            takes: &[0],
            ..sound(&["hpe", "geometry", "--profile", "p.toml"])
        };
        let measures = written(&rt, &named, &[0], *status, told)?;
        assert!(rt; measures.is_empty() || *status == Status::Done);
    }
    Ok(())
}
