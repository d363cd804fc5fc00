// Fades that hide a picture.
use list_commands::{CutPlace, hiding_fades};
use room_files::MemFiles;
use std::test::Fail;
use test_cut::DOCUMENT;
use timecode12::{Counting, SequenceRate};

/// A journal that has the title over the second clip fade in, and then takes that clip out.
const JOURNAL: &str = "\
journal 2
0 1 dissolve 1 60 0 3
1 1 remove 0 1
";

#[test]
fn a_fade_over_a_picture_is_found_and_no_other(rt: HostRuntime) -> Result<(), Fail> {
    let alloc = rt.alloc();
    let mut files = MemFiles::new(alloc, Vec::new(alloc));
    files.put("cut", DOCUMENT.as_bytes())?;
    files.put("cut.journal", JOURNAL.as_bytes())?;
    let counting = Counting::new(SequenceRate::F24, false).ok_or("counting")?;
    for (point, count) in [(0, 0), (1, 1), (2, 0)] {
        let place = CutPlace {
            document: "cut",
            counting,
            journal: "cut.journal",
            point,
        };
        let found = hiding_fades(alloc, &mut files, &place).ok_or("a cut")?;
        assert_eq!(rt; found.start, 86_400);
        assert_eq!(rt; found.fades.as_slice().len(), count, "{point}");
        for fade in found.fades.as_slice() {
            assert_eq!(rt; (fade.from, fade.to), (60, 63));
        }
    }
    let past = CutPlace {
        document: "cut",
        counting,
        journal: "cut.journal",
        point: 3,
    };
    assert!(rt; hiding_fades(alloc, &mut files, &past).is_none());
    Ok(())
}

/// A compound clip after ten frames of a clip, from its frame 4 on: in it a title fades in over the frames [6, 11) of a clip.
const NESTED: &str = "\
{\"OTIO_SCHEMA\":\"Timeline.1\",\"name\":\"n\",\"global_start_time\":{\"OTIO_SCHEMA\":\"RationalTime\
.1\",\"rate\":24.0,\"value\":86400.0},\"tracks\":{\"OTIO_SCHEMA\":\"Stack.1\",\"children\":[{\"OTIO_\
SCHEMA\":\"Track.1\",\"kind\":\"Video\",\"children\":[{\"OTIO_SCHEMA\":\"Clip.1\",\"name\":\"B\",\"s\
ource_range\":{\"OTIO_SCHEMA\":\"TimeRange.1\",\"duration\":{\"OTIO_SCHEMA\":\"RationalTime.1\",\"ra\
te\":24.0,\"value\":10.0},\"start_time\":{\"OTIO_SCHEMA\":\"RationalTime.1\",\"rate\":24.0,\"value\"\
:0.0}},\"media_reference\":{\"OTIO_SCHEMA\":\"ExternalReference.1\",\"target_url\":\"B.mov\",\"avail\
able_range\":{\"OTIO_SCHEMA\":\"TimeRange.1\",\"duration\":{\"OTIO_SCHEMA\":\"RationalTime.1\",\"rat\
e\":24.0,\"value\":500.0},\"start_time\":{\"OTIO_SCHEMA\":\"RationalTime.1\",\"rate\":24.0,\"value\"\
:0.0}}}},{\"OTIO_SCHEMA\":\"Stack.1\",\"source_range\":{\"OTIO_SCHEMA\":\"TimeRange.1\",\"duration\"\
:{\"OTIO_SCHEMA\":\"RationalTime.1\",\"rate\":24.0,\"value\":20.0},\"start_time\":{\"OTIO_SCHEMA\":\
\"RationalTime.1\",\"rate\":24.0,\"value\":4.0}},\"children\":[{\"OTIO_SCHEMA\":\"Track.1\",\"kind\"\
:\"Video\",\"children\":[{\"OTIO_SCHEMA\":\"Clip.1\",\"name\":\"A\",\"source_range\":{\"OTIO_SCHEMA\
\":\"TimeRange.1\",\"duration\":{\"OTIO_SCHEMA\":\"RationalTime.1\",\"rate\":24.0,\"value\":24.0},\"\
start_time\":{\"OTIO_SCHEMA\":\"RationalTime.1\",\"rate\":24.0,\"value\":100.0}},\"media_reference\"\
:{\"OTIO_SCHEMA\":\"ExternalReference.1\",\"target_url\":\"A.mov\",\"available_range\":{\"OTIO_SCHEM\
A\":\"TimeRange.1\",\"duration\":{\"OTIO_SCHEMA\":\"RationalTime.1\",\"rate\":24.0,\"value\":500.0},\
\"start_time\":{\"OTIO_SCHEMA\":\"RationalTime.1\",\"rate\":24.0,\"value\":0.0}}}}]},{\"OTIO_SCHEMA\
\":\"Track.1\",\"kind\":\"Video\",\"children\":[{\"OTIO_SCHEMA\":\"Gap.1\",\"source_range\":{\"OTIO_\
SCHEMA\":\"TimeRange.1\",\"duration\":{\"OTIO_SCHEMA\":\"RationalTime.1\",\"rate\":24.0,\"value\":8.\
0},\"start_time\":{\"OTIO_SCHEMA\":\"RationalTime.1\",\"rate\":24.0,\"value\":0.0}}},{\"OTIO_SCHEMA\
\":\"Transition.1\",\"transition_type\":\"SMPTE_Dissolve\",\"in_offset\":{\"OTIO_SCHEMA\":\"Rational\
Time.1\",\"rate\":24.0,\"value\":2.0},\"out_offset\":{\"OTIO_SCHEMA\":\"RationalTime.1\",\"rate\":24\
.0,\"value\":3.0}},{\"OTIO_SCHEMA\":\"Clip.1\",\"name\":\"T\",\"source_range\":{\"OTIO_SCHEMA\":\"Ti\
meRange.1\",\"duration\":{\"OTIO_SCHEMA\":\"RationalTime.1\",\"rate\":24.0,\"value\":12.0},\"start_t\
ime\":{\"OTIO_SCHEMA\":\"RationalTime.1\",\"rate\":24.0,\"value\":60.0}},\"media_reference\":{\"OTIO\
_SCHEMA\":\"ExternalReference.1\",\"target_url\":\"T.mov\",\"available_range\":{\"OTIO_SCHEMA\":\"Ti\
meRange.1\",\"duration\":{\"OTIO_SCHEMA\":\"RationalTime.1\",\"rate\":24.0,\"value\":500.0},\"start_\
time\":{\"OTIO_SCHEMA\":\"RationalTime.1\",\"rate\":24.0,\"value\":0.0}}}}]}]}]}]}}";

#[test]
fn a_fade_within_a_compound_clip_is_found(rt: HostRuntime) -> Result<(), Fail> {
    let alloc = rt.alloc();
    let mut files = MemFiles::new(alloc, Vec::new(alloc));
    files.put("cut", NESTED.as_bytes())?;
    files.put("cut.journal", b"journal 0\n")?;
    let place = CutPlace {
        document: "cut",
        counting: Counting::new(SequenceRate::F24, false).ok_or("counting")?,
        journal: "cut.journal",
        point: 0,
    };
    let found = hiding_fades(alloc, &mut files, &place).ok_or("a cut")?;
    assert_eq!(rt; found.start, 86_400);
    assert_eq!(rt; found.fades.as_slice().len(), 1);
    for fade in found.fades.as_slice() {
        assert_eq!(rt; (fade.from, fade.to), (12, 17));
    }
    Ok(())
}
