// Documents of lists.
use crate::calling::imports_so;
use command_files::Status;
use std::alloc::Global;
use std::test::Fail;
use test_cut::{IMPORTED, LIST};
use timecode12::{Counting, SequenceRate};

/// What a list without events is: three tracks without items, from the first frame of the day on.
const EMPTY: &str = "\
{\"OTIO_SCHEMA\":\"Timeline.1\",\"name\":\"\",\"metadata\":{},\"global_start_time\":{\"OTIO_SCHEMA\":\"RationalTime.1\",\
\"rate\":24.0,\"value\":0.0},\"tracks\":{\"OTIO_SCHEMA\":\"Stack.1\",\"name\":\"tracks\",\"metadata\":{},\
\"source_range\":null,\"effects\":[],\"markers\":[],\"children\":[\
{\"OTIO_SCHEMA\":\"Track.1\",\"name\":\"\",\"metadata\":{},\"source_range\":null,\"effects\":[],\"markers\":[],\
\"kind\":\"Video\",\"children\":[]},\
{\"OTIO_SCHEMA\":\"Track.1\",\"name\":\"\",\"metadata\":{},\"source_range\":null,\"effects\":[],\"markers\":[],\
\"kind\":\"Audio\",\"children\":[]},\
{\"OTIO_SCHEMA\":\"Track.1\",\"name\":\"\",\"metadata\":{},\"source_range\":null,\"effects\":[],\"markers\":[],\
\"kind\":\"Audio\",\"children\":[]}]}}
";

// Whether a list at 24 frames a second, without drop-frame, is imported so.
fn at_24(
    alloc: Global,
    list: &str,
    reads: &[u32],
    writes: &[u32],
    wanted: Status,
    text: &str,
) -> Result<bool, Fail> {
    let counting = Counting::new(SequenceRate::F24, false).ok_or("counting")?;
    imports_so(alloc, list, &counting, reads, writes, wanted, text)
}

#[test]
fn a_list_becomes_a_document(rt: HostRuntime) -> Result<(), Fail> {
    let alloc = rt.alloc();
    assert!(rt; at_24(alloc, LIST, &[], &[], Status::Done, IMPORTED)?);
    assert!(rt; at_24(alloc, "", &[], &[], Status::Done, EMPTY)?);
    assert!(rt; at_24(alloc, LIST, &[1], &[], Status::ReadFault, "")?);
    assert!(rt; at_24(alloc, LIST, &[], &[1], Status::WriteFault, "")?);
    Ok(())
}

// A list, and the line that says why it makes no document: a fault of the list first, and then of its events one by one.
#[test]
fn a_list_makes_no_document(rt: HostRuntime) -> Result<(), Fail> {
    let alloc = rt.alloc();
    for (list, text) in [
        ("FCM: DROP FRAME\n", "refused P12 1\n"),
        (
            "001 A V C 00:00:00:00 00:00:00:00 00:00:00:00 00:00:00:00\n\
             001 B V D 001 00:00:01:00 00:00:01:01 00:00:00:00 00:00:00:01\n",
            "refused I1 2\n",
        ),
        (
            "001 BL V C 00:00:00:00 00:00:00:00 00:00:00:00 00:00:00:00\n\
             001 BL V D 001 00:00:01:00 00:00:01:01 00:00:00:00 00:00:00:01\n",
            "refused I1 2\n",
        ),
        (
            "* A FADE OF NOTHING\n\
             001 BL V C 00:00:00:00 00:00:00:00 00:00:00:00 00:00:00:00\n\
             001 BL V D 001 00:00:01:00 00:00:01:02 00:00:00:00 00:00:00:02\n\
             002 A V C 00:00:00:00 00:00:00:00 00:00:01:00 00:00:01:00\n\
             002 B V D 001 00:00:01:00 00:00:01:01 00:00:01:00 00:00:01:01\n",
            "refused I2 3\n",
        ),
    ] {
        assert!(rt;
            at_24(alloc, list, &[], &[], Status::Refused, text)?,
            "{text}"
        );
        assert!(rt;
            at_24(alloc, list, &[], &[1], Status::WriteFault, "")?,
            "{text}"
        );
    }
    Ok(())
}

// The last seconds of a day of labels without drop-frame are after a day of drop-frame counting.
#[test]
fn a_list_begins_behind_the_day(rt: HostRuntime) -> Result<(), Fail> {
    let alloc = rt.alloc();
    let counting = Counting::new(SequenceRate::F2997, true).ok_or("counting")?;
    let list = "001 A V C 00:00:00:00 00:00:00:01 23:59:59:00 23:59:59:01\n";
    let text = "refused I3 2591970\n";
    assert!(rt; imports_so(alloc, list, &counting, &[], &[], Status::Refused, text)?);
    Ok(())
}
