// Documents written short: in a text ' stands for ", ^ for the place of the fault, <N> for a RationalTime of N frames
// at 24, (S;N) for a TimeRange, and the other signs of `long_of` for what often stands in a document.

use std::alloc::Global;
use std::test::Fail;

// What a sign stands for.
fn long_of(sign: char) -> Option<&'static str> {
    match sign {
        '\'' => Some("\""),
        '^' => Some(""),
        '@' => Some("\"OTIO_SCHEMA\":"),
        '<' => Some("{\"OTIO_SCHEMA\":\"RationalTime.1\",\"rate\":24.0,\"value\":"),
        '>' => Some("}"),
        '(' => Some(
            "{\"OTIO_SCHEMA\":\"TimeRange.1\",\"start_time\":{\"OTIO_SCHEMA\":\"RationalTime.1\",\"rate\":24.0,\"value\":",
        ),
        ';' => Some("},\"duration\":{\"OTIO_SCHEMA\":\"RationalTime.1\",\"rate\":24.0,\"value\":"),
        ')' => Some("}}"),
        _ => item_of(sign),
    }
}

// A sign for an item, a track, or what stands around some.
fn item_of(sign: char) -> Option<&'static str> {
    match sign {
        '#' => Some(
            "{\"OTIO_SCHEMA\":\"Clip.1\",\"source_range\":{\"OTIO_SCHEMA\":\"TimeRange.1\",\"start_time\":{\"OTIO_SCHEMA\":\"RationalTime.1\",\"rate\":24,\"value\":10},\"duration\":{\"OTIO_SCHEMA\":\"RationalTime.1\",\"rate\":24,\"value\":20}},\"media_reference\":{\"available_range\":{\"OTIO_SCHEMA\":\"TimeRange.1\",\"start_time\":{\"OTIO_SCHEMA\":\"RationalTime.1\",\"rate\":24,\"value\":0},\"duration\":{\"OTIO_SCHEMA\":\"RationalTime.1\",\"rate\":24,\"value\":100}}}}",
        ),
        '~' => Some(
            "{\"OTIO_SCHEMA\":\"Gap.1\",\"source_range\":{\"OTIO_SCHEMA\":\"TimeRange.1\",\"duration\":{\"OTIO_SCHEMA\":\"RationalTime.1\",\"rate\":24,\"value\":3}}}",
        ),
        '=' => Some(
            "{\"OTIO_SCHEMA\":\"Gap.1\",\"source_range\":{\"OTIO_SCHEMA\":\"TimeRange.1\",\"duration\":{\"OTIO_SCHEMA\":\"RationalTime.1\",\"rate\":24,\"value\":0}}}",
        ),
        '%' => Some("\"OTIO_SCHEMA\":\"Transition.1\",\"transition_type\":\"SMPTE_Dissolve\""),
        '+' => Some("{\"OTIO_SCHEMA\":\"Track.1\",\"kind\":\"Video\",\"children\":[]}"),
        '$' => Some("{\"OTIO_SCHEMA\":\"Stack.1\",\"children\":["),
        '*' => Some("]}"),
        '!' => Some(
            "{\"OTIO_SCHEMA\":\"Timeline.1\",\"tracks\":{\"OTIO_SCHEMA\":\"Stack.1\",\"children\":[{\"OTIO_SCHEMA\":\"Track.1\",\"kind\":\"Video\",\"children\":[",
        ),
        '?' => Some("]}]}}"),
        _ => None,
    }
}

// The whole text of a short one.
pub(super) fn written(alloc: Global, short: &str) -> Result<String, Fail> {
    let mut out = String::new(alloc);
    for sign in short.chars() {
        match long_of(sign) {
            Some(long) => out.push_str(long)?,
            None => out.push(sign)?,
        }
    }
    Ok(out)
}
