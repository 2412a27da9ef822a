//! Texts of profile files, and what is answered of each.

use crate::{ReadFault, read_profile};
use hpe_base::{Key, ProfileFault};
use std::test::Fail;

#[test]
fn worked_texts(rt: HostRuntime) -> Result<(), Fail> {
    let cases: [(&[u8], Option<ReadFault>); 17] = [
        (b"order = 16\nrate = \"1/3\"\n", None),
        (b"", Some(ReadFault::Missing(Key::Order))),
        (b"order = 16", Some(ReadFault::Missing(Key::Rate))),
        (
            b"order = \"16\"\nrate = \"1/3\"",
            Some(ReadFault::Kind(Key::Order)),
        ),
        (
            b"order = 16\nrate = \"1/4\"",
            Some(ReadFault::Profile(ProfileFault::Range(Key::Rate))),
        ),
        (
            b"order = 16\nrate = \"1/3\"\nrow = 4",
            Some(ReadFault::Unknown),
        ),
        (
            b"order = 16\nrate = \"2/3\"\ncolumns = \"110  010\"",
            Some(ReadFault::Profile(ProfileFault::Range(Key::Columns))),
        ),
        (b"order = 16\nrate = \"2/3\"\ncolumns = \"011 001\"", None),
        (
            b"order = 16\nrate = \"1/3\"\nrows = 65",
            Some(ReadFault::Profile(ProfileFault::Range(Key::Rows))),
        ),
        (
            b"order = 16\nrate = \"1/3\"\nmarker = []",
            Some(ReadFault::Profile(ProfileFault::Range(Key::Marker))),
        ),
        // an unknown key comes before what is missing, and what is missing or of another kind before a range
        (b"row = 4", Some(ReadFault::Unknown)),
        (b"order = 5\nrate = 3", Some(ReadFault::Kind(Key::Rate))),
        (b"order = 16\nrate = \"1/3\"\ncount_octets = 2", None),
        (
            b"order = 16\nrate = \"1/3\"\ncount_octets = 3",
            Some(ReadFault::Profile(ProfileFault::Range(Key::CountOctets))),
        ),
        (
            b"order = 16\nrate = \"1/3\"\nscale = true\ncount_octets = 2.0",
            Some(ReadFault::Kind(Key::CountOctets)),
        ),
        (b"order = ", Some(ReadFault::Text)),
        (b"\xFF", Some(ReadFault::Text)),
    ];
    for (text, fault) in &cases {
        assert!(rt; read_profile(rt.alloc(), text).err() == *fault);
    }
    Ok(())
}
