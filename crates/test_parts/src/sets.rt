// Sets of parts as numbers.
use part_sets::laws::sets_are_their_members;
use part_sets::{first_absent, has};

#[test]
fn a_set_has_the_parts_of_its_bits(rt: HostRuntime) {
    // a set, and the parts of it among 0, 1, 2 and 31
    for (set, members) in [
        (0u32, [false, false, false, false]),
        (1, [true, false, false, false]),
        (0b110, [false, true, true, false]),
        (1 << 31, [false, false, false, true]),
        (u32::MAX, [true, true, true, true]),
    ] {
        assert!(rt;
            [has(set, 0), has(set, 1), has(set, 2), has(set, 31)] == members,
            "{set}"
        );
    }
    sets_are_their_members();
}

#[test]
fn the_first_part_that_is_absent_is_told(rt: HostRuntime) {
    // how many parts there are, a set, its first part that is not there
    for (count, set, absent) in [
        (0u32, 0u32, None),
        (0, 0b1, Some(0)),
        (3, 0b111, None),
        (3, 0b1000, Some(3)),
        (3, 0b110010, Some(4)),
        (2, 0b10100, Some(2)),
        (31, 1 << 31, Some(31)),
        (31, u32::MAX, Some(31)),
        (32, u32::MAX, None),
        (u32::MAX, u32::MAX, None),
    ] {
        assert_eq!(rt; first_absent(count, set), absent, "{set} of {count}");
    }
}
