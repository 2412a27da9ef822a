//! Words that ask for nothing.

use super::{Given, sound, written};
use crate::ending::Status;
use std::test::Fail;

const USAGE: &str = "usage: hpe encode, decode, geometry or simulate, with options\n";

#[test]
fn words_that_ask_for_nothing(rt: HostRuntime) -> Result<(), Fail> {
    let refused: [&[&str]; 24] = [
        &[],
        &["hpe"],
        &["hpe", "mend"],
        &["hpe", "Encode"],
        &["hpe", "--help"],
        &["hpe", "encode", "encode"],
        &["hpe", "decode", "--seed", "1"],
        &["hpe", "decode", "--workers", "17"],
        &["hpe", "decode", "--workers", "0"],
        &["hpe", "encode", "--workers", "2"],
        &["hpe", "geometry", "--workers", "1"],
        &["hpe", "geometry", "--limit", "5"],
        &["hpe", "encode", "--limit", "0"],
        &["hpe", "encode", "--limit", "1099511627777"],
        &["hpe", "encode", "--limit", "5", "--limit", "6"],
        &["hpe", "geometry", "--seed", "1"],
        &["hpe", "encode", "--frames", "1"],
        &["hpe", "decode", "--lost", "0"],
        &["hpe", "decode", "--noise", "0"],
        &["hpe", "simulate", "--limit", "268435457"],
        &["hpe", "simulate", "--seed", "9223372036854775808"],
        &["hpe", "simulate", "--frames", "65536"],
        &["hpe", "simulate", "--lost", "65536"],
        &["hpe", "simulate", "--noise", "65536"],
    ];
    for words in &refused {
        // The input fails at its first take, which none of these does.
        let given = Given {
            takes: &[0],
            ..sound(*words)
        };
        let none = written(&rt, &given, &[0], Status::Usage, USAGE)?;
        assert!(rt; none.is_empty());
    }
    Ok(())
}
