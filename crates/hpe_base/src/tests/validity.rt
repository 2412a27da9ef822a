//! Which fields make a profile: the ends of each range, each rule broken alone, and which fault comes first.

use crate::tests::{MARKER, basic_fields};
use crate::{Fields, Key, Profile, ProfileFault, Rule};

/// The same with another number for a key.
fn with<'a>(key: Key, number: i64, mut fields: Fields<'a>) -> Fields<'a> {
    match key {
        Key::Order => fields.order = number,
        Key::FrameOctets => fields.frame_octets = number,
        Key::FrameMarker => fields.frame_marker = number,
        Key::Taps => fields.taps = number,
        Key::Seed => fields.seed = number,
        Key::Check => fields.check = number,
        Key::Rows => fields.rows = number,
        Key::Delay => fields.delay = number,
        Key::Repeat => fields.repeat = number,
        Key::Rounds => fields.rounds = number,
        Key::Search => fields.search = number,
        Key::CountOctets => fields.count_octets = number,
        Key::Scale => fields.scale = number,
        _ => {}
    }
    fields
}

fn fault_of(fields: &Fields) -> Option<ProfileFault> {
    Profile::new(fields).err()
}

#[test]
fn ends_of_ranges(rt: HostRuntime) {
    let ends = [
        (Key::Order, 3, 4, 256, 257),
        (Key::FrameOctets, 0, 1, 65_536, 65_537),
        (Key::FrameMarker, 0, 1, 4_294_967_295, 4_294_967_296),
        (Key::Taps, -1, 0, 255, 256),
        (Key::Seed, -1, 0, 255, 256),
        (Key::Check, -1, 1, 4_294_967_295, 4_294_967_297),
        (Key::Rows, 0, 1, 63, 65),
        (Key::Delay, 0, 1, 8_388_608, 8_388_609),
        (Key::Repeat, 0, 1, 32, 33),
        (Key::Rounds, 0, 1, 64, 65),
        (Key::Search, 0, 1, 4, 5),
        (Key::CountOctets, 0, 1, 2, 3),
        (Key::Scale, 0, 1, 8, 9),
    ];
    for (key, below, lowest, highest, above) in ends {
        for (number, fault) in [
            (below, Some(ProfileFault::Range(key))),
            (lowest, None),
            (highest, None),
            (above, Some(ProfileFault::Range(key))),
        ] {
            let fields = with(key, number, basic_fields(&[0, 1, 2, 3]));
            assert_eq!(rt; fault_of(&fields), fault, "{key:?} {number}");
        }
    }
    for (key, number) in [
        (Key::Order, 5),
        (Key::Order, i64::MIN),
        (Key::Check, 2),
        (Key::Check, 4_294_967_296),
    ] {
        let fields = with(key, number, basic_fields(&MARKER));
        assert_eq!(rt;
            fault_of(&fields),
            Some(ProfileFault::Range(key)),
            "{key:?} {number}"
        );
    }
}

#[test]
fn texts_and_lists(rt: HostRuntime) {
    let out_of_range = Some(ProfileFault::Range(Key::Columns));
    let kept_total = Some(ProfileFault::Tie(Rule::KeptTotal));
    for (rate, columns, fault) in [
        ("1/3", "111", None),
        ("1/2", "110", None),
        ("2/3", "110 010", None),
        ("2/3", "011 001", None),
        (
            "1/3",
            "111 111 111 111 111 111 111 111 111 111 111 111",
            None,
        ),
        (
            "1/3",
            "111 111 111 111 111 111 111 111 111 111 111 111 111",
            out_of_range,
        ),
        ("2/3", "110  010", out_of_range),
        ("1/3", "", out_of_range),
        ("1/3", "11", out_of_range),
        ("1/3", "1111", out_of_range),
        ("1/3", "111 ", out_of_range),
        ("1/3", " 111", out_of_range),
        ("1/3", "112", out_of_range),
        ("1/3", "111,111", out_of_range),
        ("1/3", "111 11", out_of_range),
        ("1/2", "111", kept_total),
        ("1/4", "111", Some(ProfileFault::Range(Key::Rate))),
        ("1/3 ", "111", Some(ProfileFault::Range(Key::Rate))),
        ("", "111", Some(ProfileFault::Range(Key::Rate))),
    ] {
        let mut fields = basic_fields(&MARKER);
        fields.rate = rate;
        fields.columns = columns;
        assert_eq!(rt; fault_of(&fields), fault, "{rate} {columns}");
    }
    let longest = [15; 64];
    let longer = [15; 65];
    let markers: [(&[i64], Option<ProfileFault>); 7] = [
        (&[0], None),
        (&longest, None),
        (&[], Some(ProfileFault::Range(Key::Marker))),
        (&longer, Some(ProfileFault::Range(Key::Marker))),
        (&[0, -1], Some(ProfileFault::Range(Key::Marker))),
        (&[0, 256], Some(ProfileFault::Range(Key::Marker))),
        (&[0, 16], Some(ProfileFault::Tie(Rule::MarkerValue))),
    ];
    for (marker, fault) in markers {
        assert_eq!(rt; fault_of(&basic_fields(marker)), fault, "{}", marker.len());
    }
}

#[test]
fn rules(rt: HostRuntime) {
    let basic: &[i64] = &MARKER;
    let high: &[i64] = &[0, 16];
    let eleven = "111 111 111 111 111 111 111 111 111 111 111";
    let eleven_empty = "000 000 000 000 000 000 000 000 000 000 000";
    let eleven_short = "110 111 111 111 111 111 111 111 111 111 111";
    for (order, columns, rows, delay, marker, repeat, search, broken) in [
        (16, "000", 1, 1, basic, 1, 1, Some(Rule::ColumnEmpty)),
        (16, eleven, 1, 1, basic, 1, 1, Some(Rule::ColumnCount)),
        (16, "110", 1, 1, basic, 1, 1, Some(Rule::KeptTotal)),
        (16, "111", 11, 1, basic, 1, 1, Some(Rule::RowsDivide)),
        (16, "111", 64, 1, basic, 1, 1, Some(Rule::RowsDivide)),
        (16, "111", 1, 1, high, 1, 1, Some(Rule::MarkerValue)),
        (16, "111", 60, 8_388_608, basic, 1, 1, Some(Rule::Depth)),
        (256, "111", 1, 1, basic, 32, 4, Some(Rule::Window)),
        (256, "111", 1, 1, basic, 32, 3, None),
        (16, eleven_empty, 1, 1, basic, 1, 1, Some(Rule::ColumnEmpty)),
        (16, eleven_short, 1, 1, basic, 1, 1, Some(Rule::ColumnCount)),
        (16, "110", 11, 1, basic, 1, 1, Some(Rule::KeptTotal)),
        (16, "111", 11, 1, high, 1, 1, Some(Rule::RowsDivide)),
        (
            16,
            "111",
            60,
            8_388_608,
            high,
            1,
            1,
            Some(Rule::MarkerValue),
        ),
        (256, "111", 63, 8_388_608, basic, 32, 4, Some(Rule::Depth)),
    ] {
        let mut fields = basic_fields(marker);
        fields.order = order;
        fields.columns = columns;
        fields.rows = rows;
        fields.delay = delay;
        fields.repeat = repeat;
        fields.search = search;
        assert_eq!(rt;
            fault_of(&fields),
            broken.map(|rule| ProfileFault::Tie(rule)),
            "{order} {columns} {rows}"
        );
    }
}

#[test]
fn first_fault(rt: HostRuntime) {
    for (rate, columns, seed, check, search, first) in [
        ("1/4", "11", 255, 1, 1, Key::Rate),
        ("1/3", "111", 256, 2, 1, Key::Seed),
        ("1/3", "11", 255, 2, 5, Key::Check),
        ("1/3", "000", 255, 1, 5, Key::Search),
    ] {
        let mut fields = basic_fields(&MARKER);
        fields.rate = rate;
        fields.columns = columns;
        fields.seed = seed;
        fields.check = check;
        fields.search = search;
        assert_eq!(rt;
            fault_of(&fields),
            Some(ProfileFault::Range(first)),
            "{first:?}"
        );
    }
}
