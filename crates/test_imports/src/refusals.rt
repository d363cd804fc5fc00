// Each refusal at its border.
use crate::lists::opened;
use list_import::{ImportCode, ImportFault};
use std::test::Fail;

// A list, whether its room counts with drop-frame, and why the list makes no opening, if it makes none.
const LISTS: [(&str, bool, Option<(ImportCode, u32)>); 9] = [
    // a dissolve of one frame, in an event of one frame and of two
    (
        "001 A V C 00:00:00:00 00:00:00:00 00:00:00:00 00:00:00:00
001 B V D 001 00:00:01:00 00:00:01:01 00:00:00:00 00:00:00:01",
        false,
        Some((ImportCode::I1, 2)),
    ),
    (
        "001 A V C 00:00:00:00 00:00:00:00 00:00:00:00 00:00:00:00
001 B V D 001 00:00:01:00 00:00:01:02 00:00:00:00 00:00:00:02",
        false,
        None,
    ),
    // from black to black, of one frame and of more
    (
        "001 BL V C 00:00:00:00 00:00:00:00 00:00:00:00 00:00:00:00
001 BL V D 001 00:00:01:00 00:00:01:01 00:00:00:00 00:00:00:01",
        false,
        Some((ImportCode::I1, 2)),
    ),
    (
        "001 BL V C 00:00:00:00 00:00:00:00 00:00:00:00 00:00:00:00
001 BL V D 001 00:00:01:00 00:00:01:02 00:00:00:00 00:00:00:02",
        false,
        Some((ImportCode::I2, 2)),
    ),
    // the first of the list, though the other is earlier in the record
    (
        "001 BL V C 00:00:00:00 00:00:00:00 00:00:01:00 00:00:01:00
001 BL V D 002 00:00:01:00 00:00:01:02 00:00:01:00 00:00:01:02
002 A V C 00:00:00:00 00:00:00:00 00:00:00:00 00:00:00:00
002 B V D 001 00:00:01:00 00:00:01:01 00:00:00:00 00:00:00:01",
        false,
        Some((ImportCode::I2, 2)),
    ),
    // the first frame that no label of a day with drop-frame has, and the one before it
    (
        "001 A V C 00:00:00:00 00:00:00:01 23:58:33:18 23:58:33:19",
        true,
        Some((ImportCode::I3, 2_589_408)),
    ),
    (
        "001 A V C 00:00:00:00 00:00:00:01 23:58:33:17 23:58:33:18",
        true,
        None,
    ),
    // an event comes before the start
    (
        "001 A V C 00:00:00:00 00:00:00:00 23:58:33:18 23:58:33:18
001 B V D 001 00:00:01:00 00:00:01:01 23:58:33:18 23:58:33:19",
        true,
        Some((ImportCode::I1, 2)),
    ),
    (
        "001 A V C 00:00:00:00 00:00:00:00 23:59:59:00 23:59:59:00
001 B V D 001 00:00:01:00 00:00:01:01 23:59:59:00 23:59:59:01",
        true,
        Some((ImportCode::I1, 2)),
    ),
];

#[test]
fn a_list_is_refused_at_its_border(rt: HostRuntime) -> Result<(), Fail> {
    for (list, drop, refused) in LISTS {
        match opened(rt.alloc(), list.as_bytes(), drop) {
            Ok(_) => assert_eq!(rt; refused, None),
            Err(fault) => match refused {
                None => assert!(rt; false),
                Some((code, number)) => {
                    assert_eq!(rt; fault, ImportFault::Refused { code, number });
                }
            },
        }
    }
    Ok(())
}
