//! Simulated links.

use super::{Given, sound, written};
use crate::ending::Status;
use std::test::Fail;

#[test]
fn simulations(rt: HostRuntime) -> Result<(), Fail> {
    let three = sound(&["hpe", "simulate", "--seed", "1", "--frames", "3"]);
    let three_line =
        "seed 1 frames 3 words 1 kept 1 lost 0 back 3 same 1 slots 75920 counts 3796\n";
    let three_told = "word 0 kept 1\nwords 1 kept 1 lost 0 frames 3 lead 0 tail 0\n";
    let wide: Option<&[u8]> = Some(b"order = 16\nrate = \"1/3\"\ncount_octets = 2\n");
    let cases: [(Given, Status, &str, &str); 9] = [
        (three, Status::Done, three_line, three_told),
        (
            Given {
                profile: wide,
                words: &[
                    "hpe",
                    "simulate",
                    "--profile=p.toml",
                    "--seed=1",
                    "--frames=3",
                    "--limit=75920",
                    "--workers=2",
                ],
                ..three
            },
            Status::Done,
            three_line,
            three_told,
        ),
        (
            sound(&[
                "hpe", "simulate", "--seed", "5", "--frames", "6", "--lost", "29491", "--noise",
                "8",
            ]),
            Status::Done,
            "seed 5 frames 6 words 1 kept 1 lost 0 back 6 same 1 slots 75920 counts 2173\n",
            "word 0 kept 2\nwords 1 kept 1 lost 0 frames 6 lead 0 tail 0\n",
        ),
        (
            sound(&["hpe", "simulate", "--frames", "0"]),
            Status::Done,
            "seed 0 frames 0 words 0 kept 0 lost 0 back 0 same 1 slots 0 counts 0\n",
            "words 0 kept 0 lost 0 frames 0 lead 0 tail 0\n",
        ),
        // No word of the channel's generator has the low half 65,535 here, so no pulse comes through.
        (
            sound(&["hpe", "simulate", "--seed", "6", "--lost", "65535"]),
            Status::NoMarker,
            "",
            "no marker in 75920 slots\n",
        ),
        (
            sound(&["hpe", "simulate", "--limit", "75919"]),
            Status::TooLong,
            "",
            "too long: limit 75919\n",
        ),
        // An output with room for ten octets, and a report with room for twenty.
        (
            Given { room: 10, ..three },
            Status::WriteFault,
            "seed 1 fra",
            "word 0 kept 1\nwords 1 kept 1 lost 0 frames 3 lead 0 tail 0\nwrite fault\n",
        ),
        (
            Given { told: 20, ..three },
            Status::ReportFault,
            "",
            "word 0 kept 1\nwords ",
        ),
        (
            Given {
                told: 9,
                ..sound(&["hpe", "simulate", "--limit", "1"])
            },
            Status::TooLong,
            "",
            "too long:",
        ),
    ];
    for (given, status, output, told) in &cases {
        // The input fails at its first take, which none of these does.
        let given = Given {
            takes: &[0],
            ..*given
        };
        let some = written(&rt, &given, &[0], *status, told)?;
        assert_eq!(rt; some.as_slice(), output.as_bytes());
    }
    Ok(())
}
