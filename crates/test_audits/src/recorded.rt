// A session of four stations in the room of the worked document, as it was recorded, and what comes of changed ones.
// `tools/plain/changed --write` writes what follows.

/// The entries of the journal.
pub(crate) const ENTRIES: &str = "\
0 2 slice 0 10
1 2 slice 3 60
3 2 overwrite 1 0 @0 3600 5
0 3 roll 0 10 2
1 3 back 3
2 4 link 0,2 0,0
3 3 extract 0 0 1
1 4 insert 0,2 0 4 @1 200 3
3 4 trim 1 0 tail -2
1 5 fill 3 10 @0 3600 source 6
2 6 unlink 0 0
0 6 ripple 0,2 0 3 tail -1
1 6 slip 0 0 3 2
0 7 dissolve 0 4 1 1
3 6 undissolve 0 4
1 7 remove 3 1
0 8 slide 0 0 3 1
3 7 overwrite 1 90 @2 0 2
0 9 back 0
1 9 overwrite 2 80 @1 0 4
2 11 slice 2 1
3 9 slice 1 2
2 12 back 2
";

/// What each station sent.
pub(crate) const LINES: [&str; 4] = [
    "\
items 0
slice 0 10
roll 0 10 2
back 1
jump
ripple 0,2 0 3 tail -1
dissolve 0 01:00:00:04 1 1
slide 0 0 3 1
back 0
point
",
    "\
point
slice 3 60
back 3
insert 0,2 0 4 @1 200 3
fill 3 10 @0 3600 source 6
slip 0 0 3 2
remove 3 1
slice 1
overwrite 2 80 @1 0 4
items 32
",
    "\
news 0
news 0
news 1
link 0,2 0,0
news 3
unlink 0 0
otio 40
otio 1
items 2
news 30
slice 2 1
back 2
",
    "\
view 0 0 12
overwrite 1 0 @0 3600 5
extract 0 0 1
trim 1 0 tail -2
point
undissolve 0 4
overwrite 1 90 @2 0 2
view 1 0 20
slice 1 2
",
];

/// What each station got.
pub(crate) const REPLIES: [&str; 4] = [
    "\
items 0 0 @0 3600 48 mark 1 2 1 @1 100 24
ok 0
ok 3 by 2
no 5 E16 1
bad B1
ok 11 by -1
ok 13
ok 16 by 1
ok 18
point 21
",
    "\
point 0
ok 1
ok 4
ok 7 item 3
ok 9 item 1
ok 12 by 2
ok 15
bad B2
ok 19 item 2
bad B4
",
    "\
news 0 0
news 0 2 0 2 slice 0 10
news 1 2 1 2 slice 3 60
ok 5 link 0.0
news 3 8 0 3 roll 0 10 2
ok 10
no 13 V3
otio 1 {\"OTIO_SCHEMA\":\"Timeline.1\",\"name\":\"\",\"metadata\":{},\"global_start_time\":{\"OTIO_SCHEMA\":\"RationalTime.1\",\
\"rate\":24.0,\"value\":86400.0},\"tracks\":{\"OTIO_SCHEMA\":\"Stack.1\",\"name\":\"tracks\",\
\"metadata\":{},\"source_range\":null,\"effects\":[],\"markers\":[],\"children\":[{\"OTIO_SCHEMA\":\"Track.1\",\
\"name\":\"\",\"metadata\":{},\"source_range\":null,\"effects\":[],\"markers\":[],\"kind\":\"Video\",\
\"children\":[{\"OTIO_SCHEMA\":\"Clip.2\",\"name\":\"TAPE1\",\"metadata\":{\"cmx_3600\":{\"reel\":\"TAPE1\"}},\
\"source_range\":{\"OTIO_SCHEMA\":\"TimeRange.1\",\"duration\":{\"OTIO_SCHEMA\":\"RationalTime.1\",\
\"rate\":24.0,\"value\":10.0},\"start_time\":{\"OTIO_SCHEMA\":\"RationalTime.1\",\"rate\":24.0,\
\"value\":3600.0}},\"effects\":[],\"markers\":[],\"media_references\":{\"DEFAULT_MEDIA\":{\"OTIO_SCHEMA\":\"MissingReference.1\",\
\"name\":\"\",\"metadata\":{},\"available_range\":{\"OTIO_SCHEMA\":\"TimeRange.1\",\"duration\":{\"OTIO_SCHEMA\":\"RationalTime.1\",\
\"rate\":24.0,\"value\":300.0},\"start_time\":{\"OTIO_SCHEMA\":\"RationalTime.1\",\"rate\":24.0,\
\"value\":3500.0}}}},\"active_media_reference_key\":\"DEFAULT_MEDIA\"},{\"OTIO_SCHEMA\":\"Clip.2\",\
\"name\":\"TAPE1\",\"metadata\":{\"cmx_3600\":{\"reel\":\"TAPE1\"}},\"source_range\":{\"OTIO_SCHEMA\":\"TimeRange.1\",\
\"duration\":{\"OTIO_SCHEMA\":\"RationalTime.1\",\"rate\":24.0,\"value\":38.0},\"start_time\":{\"OTIO_SCHEMA\":\"RationalTime.1\",\
\"rate\":24.0,\"value\":3610.0}},\"effects\":[],\"markers\":[],\"media_references\":{\"DEFAULT_MEDIA\":{\"OTIO_SCHEMA\":\"MissingReference.1\",\
\"name\":\"\",\"metadata\":{},\"available_range\":{\"OTIO_SCHEMA\":\"TimeRange.1\",\"duration\":{\"OTIO_SCHEMA\":\"RationalTime.1\",\
\"rate\":24.0,\"value\":300.0},\"start_time\":{\"OTIO_SCHEMA\":\"RationalTime.1\",\"rate\":24.0,\
\"value\":3500.0}}}},\"active_media_reference_key\":\"DEFAULT_MEDIA\"},{\"OTIO_SCHEMA\":\"Transition.1\",\
\"name\":\"\",\"metadata\":{},\"transition_type\":\"SMPTE_Dissolve\",\"in_offset\":{\"OTIO_SCHEMA\":\"RationalTime.1\",\
\"rate\":24.0,\"value\":1.0},\"out_offset\":{\"OTIO_SCHEMA\":\"RationalTime.1\",\"rate\":24.0,\
\"value\":2.0}},{\"OTIO_SCHEMA\":\"Clip.2\",\"name\":\"TAPE2\",\"metadata\":{\"cmx_3600\":{\"reel\":\"TAPE2\"}},\
\"source_range\":{\"OTIO_SCHEMA\":\"TimeRange.1\",\"duration\":{\"OTIO_SCHEMA\":\"RationalTime.1\",\
\"rate\":24.0,\"value\":24.0},\"start_time\":{\"OTIO_SCHEMA\":\"RationalTime.1\",\"rate\":24.0,\
\"value\":100.0}},\"effects\":[],\"markers\":[],\"media_references\":{\"DEFAULT_MEDIA\":{\"OTIO_SCHEMA\":\"MissingReference.1\",\
\"name\":\"\",\"metadata\":{},\"available_range\":{\"OTIO_SCHEMA\":\"TimeRange.1\",\"duration\":{\"OTIO_SCHEMA\":\"RationalTime.1\",\
\"rate\":24.0,\"value\":500.0},\"start_time\":{\"OTIO_SCHEMA\":\"RationalTime.1\",\"rate\":24.0,\
\"value\":0.0}}}},\"active_media_reference_key\":\"DEFAULT_MEDIA\"}]},{\"OTIO_SCHEMA\":\"Track.1\",\
\"name\":\"\",\"metadata\":{},\"source_range\":null,\"effects\":[],\"markers\":[],\"kind\":\"Video\",\
\"children\":[{\"OTIO_SCHEMA\":\"Gap.1\",\"name\":\"\",\"metadata\":{},\"source_range\":{\"OTIO_SCHEMA\":\"TimeRange.1\",\
\"duration\":{\"OTIO_SCHEMA\":\"RationalTime.1\",\"rate\":24.0,\"value\":60.0},\"start_time\":{\"OTIO_SCHEMA\":\"RationalTime.1\",\
\"rate\":24.0,\"value\":0.0}},\"effects\":[],\"markers\":[]},{\"OTIO_SCHEMA\":\"Clip.2\",\"name\":\"GFX1\",\
\"metadata\":{\"cmx_3600\":{\"reel\":\"GFX1\"}},\"source_range\":{\"OTIO_SCHEMA\":\"TimeRange.1\",\
\"duration\":{\"OTIO_SCHEMA\":\"RationalTime.1\",\"rate\":24.0,\"value\":6.0},\"start_time\":{\"OTIO_SCHEMA\":\"RationalTime.1\",\
\"rate\":24.0,\"value\":0.0}},\"effects\":[],\"markers\":[],\"media_references\":{\"DEFAULT_MEDIA\":{\"OTIO_SCHEMA\":\"MissingReference.1\",\
\"name\":\"\",\"metadata\":{},\"available_range\":{\"OTIO_SCHEMA\":\"TimeRange.1\",\"duration\":{\"OTIO_SCHEMA\":\"RationalTime.1\",\
\"rate\":24.0,\"value\":16777216.0},\"start_time\":{\"OTIO_SCHEMA\":\"RationalTime.1\",\"rate\":24.0,\
\"value\":0.0}}}},\"active_media_reference_key\":\"DEFAULT_MEDIA\"}]},{\"OTIO_SCHEMA\":\"Track.1\",\
\"name\":\"\",\"metadata\":{},\"source_range\":null,\"effects\":[],\"markers\":[],\"kind\":\"Audio\",\
\"children\":[{\"OTIO_SCHEMA\":\"Clip.2\",\"name\":\"TAPE1\",\"metadata\":{\"cmx_3600\":{\"reel\":\"TAPE1\"}},\
\"source_range\":{\"OTIO_SCHEMA\":\"TimeRange.1\",\"duration\":{\"OTIO_SCHEMA\":\"RationalTime.1\",\
\"rate\":24.0,\"value\":72.0},\"start_time\":{\"OTIO_SCHEMA\":\"RationalTime.1\",\"rate\":24.0,\
\"value\":3600.0}},\"effects\":[],\"markers\":[],\"media_references\":{\"DEFAULT_MEDIA\":{\"OTIO_SCHEMA\":\"MissingReference.1\",\
\"name\":\"\",\"metadata\":{},\"available_range\":{\"OTIO_SCHEMA\":\"TimeRange.1\",\"duration\":{\"OTIO_SCHEMA\":\"RationalTime.1\",\
\"rate\":24.0,\"value\":300.0},\"start_time\":{\"OTIO_SCHEMA\":\"RationalTime.1\",\"rate\":24.0,\
\"value\":3500.0}}}},\"active_media_reference_key\":\"DEFAULT_MEDIA\"}]},{\"OTIO_SCHEMA\":\"Track.1\",\
\"name\":\"\",\"metadata\":{},\"source_range\":null,\"effects\":[],\"markers\":[],\"kind\":\"Audio\",\
\"children\":[{\"OTIO_SCHEMA\":\"Gap.1\",\"name\":\"\",\"metadata\":{},\"source_range\":{\"OTIO_SCHEMA\":\"TimeRange.1\",\
\"duration\":{\"OTIO_SCHEMA\":\"RationalTime.1\",\"rate\":24.0,\"value\":48.0},\"start_time\":{\"OTIO_SCHEMA\":\"RationalTime.1\",\
\"rate\":24.0,\"value\":0.0}},\"effects\":[],\"markers\":[]},{\"OTIO_SCHEMA\":\"Clip.2\",\"name\":\"TAPE2\",\
\"metadata\":{\"cmx_3600\":{\"reel\":\"TAPE2\"}},\"source_range\":{\"OTIO_SCHEMA\":\"TimeRange.1\",\
\"duration\":{\"OTIO_SCHEMA\":\"RationalTime.1\",\"rate\":24.0,\"value\":24.0},\"start_time\":{\"OTIO_SCHEMA\":\"RationalTime.1\",\
\"rate\":24.0,\"value\":100.0}},\"effects\":[],\"markers\":[],\"media_references\":{\"DEFAULT_MEDIA\":{\"OTIO_SCHEMA\":\"MissingReference.1\",\
\"name\":\"\",\"metadata\":{},\"available_range\":{\"OTIO_SCHEMA\":\"TimeRange.1\",\"duration\":{\"OTIO_SCHEMA\":\"RationalTime.1\",\
\"rate\":24.0,\"value\":500.0},\"start_time\":{\"OTIO_SCHEMA\":\"RationalTime.1\",\"rate\":24.0,\
\"value\":0.0}}}},\"active_media_reference_key\":\"DEFAULT_MEDIA\"}]}]}}
items 15 0 @0 3600 4 link 0.0 dark 2 1 @0 3604 68 link 0.1
no 18 V3
ok 20
ok 22
",
    "\
seen 0 @0 3600 12
ok 2 item 1
ok 6
ok 8 by -2
point 11
ok 14
ok 17 item 2
seen 19 @0 3600 5 dark 15
ok 21
",
];

/// What comes of them as they are.
pub(crate) const LEGAL: &str = "\
legal 23 41
";

/// Of each entry: the entry with another number, and what comes of it, of the journal without it, with it twice, and with
/// it after the next one; the last comes first.
pub(crate) const CHANGED_ENTRIES: &str = "\
1 2 slice 0 10 | H4 3 | H3 2 | H4 3 | A3 0 2
1 3 slice 3 60 | H4 6 | H3 3 | H4 4 | A3 1 2
3 2 overwrite 2 0 @0 3600 5 | A1 1 9 | A3 0 3 | H4 5 | A3 0 3
0 3 roll 0 11 2 | H3 3 | A3 0 3 | H4 6 | A3 0 3
1 4 back 3 | H4 9 | A3 0 6 | H4 7 | A3 1 3
2 4 link 0,2 0,1 | H3 5 | A3 0 6 | H4 8 | A3 2 4
3 4 extract 0 0 1 | H4 10 | A3 0 6 | H4 9 | A3 1 4
1 4 insert 0,2 0 4 @1 201 3 | A3 1 4 | H3 10 | H4 10 | A3 1 4
3 4 trim 1 1 tail -2 | A3 3 4 | A3 0 6 | H4 11 | A3 1 5
1 5 fill 4 10 @0 3600 source 6 | H3 9 | H3 14 | H4 12 | A3 1 5
2 6 unlink 1 0 | A3 2 6 | A3 0 6 | H4 13 | A3 0 6
0 6 ripple 0,2 1 3 tail -1 | H3 11 | A3 0 6 | H4 14 | A3 0 6
2 6 slip 0 0 3 2 | H4 14 | A3 0 7 | H4 15 | A3 0 7
0 8 dissolve 0 4 1 1 | H4 18 | H3 13 | H4 16 | H3 13
3 6 undissolve 1 4 | H3 14 | A3 0 8 | H4 17 | A3 1 7
1 7 remove 3 2 | H3 15 | A3 0 8 | H4 18 | A3 0 8
0 8 slide 0 0 4 1 | H3 16 | H3 17 | H4 19 | A3 0 8
3 7 overwrite 1 91 @2 0 2 | A3 3 7 | A3 0 9 | H4 20 | A3 0 9
1 9 back 0 | H4 21 | A3 0 9 | H4 21 | A3 0 9
1 9 overwrite 2 80 @1 1 4 | A3 1 9 | A3 1 9 | H4 22 | H3 22
3 11 slice 2 1 | H4 23 | H3 21 | H4 23 | A3 2 11
3 10 slice 1 2 | A3 3 9 | A3 2 12 | H4 24 | A3 2 12
2 13 back 2 | A3 2 12 | A3 2 12 | H4 25 | H4 8
";

/// The same of the replies of each station.
pub(crate) const CHANGED_REPLIES: [&str; 4] = [
    "\
items 1 0 @0 3600 48 mark 1 2 1 @1 100 24 | A1 0 1 | A3 0 1 | A1 0 2 | A3 0 1
ok 1 | A3 0 2 | A3 0 2 | A2 0 3 | A3 0 2
ok 4 by 2 | A3 0 3 | A1 0 3 | A2 0 4 | A1 0 3
no 5 E17 1 | A1 0 4 | A1 0 4 | A1 0 5 | A1 0 4
bad B2 | A1 0 5 | A3 0 5 | A1 0 6 | A3 0 5
ok 11 by -2 | A1 0 6 | A3 0 6 | A2 0 7 | A3 0 6
ok 14 | A3 0 7 | A3 0 7 | A2 0 8 | A3 0 7
ok 16 by 2 | A1 0 8 | A3 0 8 | A2 0 9 | A3 0 8
ok 19 | A3 0 9 | A1 0 9 | A2 0 10 | A1 0 9
point 21 | legal 23 41 | A4 0 10 | A4 0 11 | A1 0 1
",
    "\
point 0 | legal 23 41 | A3 1 1 | A1 1 2 | A3 1 1
ok 2 | A3 1 2 | A3 1 2 | A2 1 3 | A3 1 2
ok 5 | A3 1 3 | A3 1 3 | A2 1 4 | A3 1 3
ok 7 item 4 | A1 1 4 | A3 1 4 | A2 1 5 | A3 1 4
ok 10 item 1 | A3 1 5 | A3 1 5 | A2 1 6 | A3 1 5
ok 12 by 3 | A1 1 6 | A3 1 6 | A2 1 7 | A3 1 6
ok 16 | A3 1 7 | A1 1 7 | A2 1 8 | A1 1 7
bad B3 | A1 1 8 | A3 1 8 | A1 1 9 | A3 1 8
ok 20 item 2 | A3 1 9 | A1 1 9 | A2 1 10 | A1 1 9
bad B5 | A1 1 10 | A4 1 10 | A4 1 11 | A1 1 1
",
    "\
news 1 0 | A1 2 1 | A1 2 2 | A1 2 3 | A2 2 2
news 0 3 0 2 slice 0 10 | A2 2 3 | A1 2 2 | A1 2 3 | A1 2 2
news 1 2 2 2 slice 3 60 | A1 2 3 | A3 2 3 | A1 2 4 | A3 2 3
ok 6 link 0.0 | A3 2 4 | A1 2 4 | A2 2 5 | A1 2 4
news 3 8 0 3 roll 1 10 2 | A1 2 5 | A3 2 5 | A1 2 6 | A3 2 5
ok 11 | A3 2 6 | A1 2 6 | A2 2 7 | A1 2 6
no 13 V4 | A1 2 7 | A1 2 7 | A1 2 8 | A1 2 7
otio 1 {\"OTIO_SCHEMA\":\"Timeline.1\",\"name\":\"\",\"metadata\":{},\"global_start_time\":{\"OTIO_SCHEMA\":\"RationalTime.1\",\
\"rate\":24.0,\"value\":86400.0},\"tracks\":{\"OTIO_SCHEMA\":\"Stack.2\",\"name\":\"tracks\",\
\"metadata\":{},\"source_range\":null,\"effects\":[],\"markers\":[],\"children\":[{\"OTIO_SCHEMA\":\"Track.1\",\
\"name\":\"\",\"metadata\":{},\"source_range\":null,\"effects\":[],\"markers\":[],\"kind\":\"Video\",\
\"children\":[{\"OTIO_SCHEMA\":\"Clip.2\",\"name\":\"TAPE1\",\"metadata\":{\"cmx_3600\":{\"reel\":\"TAPE1\"}},\
\"source_range\":{\"OTIO_SCHEMA\":\"TimeRange.1\",\"duration\":{\"OTIO_SCHEMA\":\"RationalTime.1\",\
\"rate\":24.0,\"value\":10.0},\"start_time\":{\"OTIO_SCHEMA\":\"RationalTime.1\",\"rate\":24.0,\
\"value\":3600.0}},\"effects\":[],\"markers\":[],\"media_references\":{\"DEFAULT_MEDIA\":{\"OTIO_SCHEMA\":\"MissingReference.1\",\
\"name\":\"\",\"metadata\":{},\"available_range\":{\"OTIO_SCHEMA\":\"TimeRange.1\",\"duration\":{\"OTIO_SCHEMA\":\"RationalTime.1\",\
\"rate\":24.0,\"value\":300.0},\"start_time\":{\"OTIO_SCHEMA\":\"RationalTime.1\",\"rate\":24.0,\
\"value\":3500.0}}}},\"active_media_reference_key\":\"DEFAULT_MEDIA\"},{\"OTIO_SCHEMA\":\"Clip.2\",\
\"name\":\"TAPE1\",\"metadata\":{\"cmx_3600\":{\"reel\":\"TAPE1\"}},\"source_range\":{\"OTIO_SCHEMA\":\"TimeRange.1\",\
\"duration\":{\"OTIO_SCHEMA\":\"RationalTime.1\",\"rate\":24.0,\"value\":38.0},\"start_time\":{\"OTIO_SCHEMA\":\"RationalTime.1\",\
\"rate\":24.0,\"value\":3610.0}},\"effects\":[],\"markers\":[],\"media_references\":{\"DEFAULT_MEDIA\":{\"OTIO_SCHEMA\":\"MissingReference.1\",\
\"name\":\"\",\"metadata\":{},\"available_range\":{\"OTIO_SCHEMA\":\"TimeRange.1\",\"duration\":{\"OTIO_SCHEMA\":\"RationalTime.1\",\
\"rate\":24.0,\"value\":300.0},\"start_time\":{\"OTIO_SCHEMA\":\"RationalTime.1\",\"rate\":24.0,\
\"value\":3500.0}}}},\"active_media_reference_key\":\"DEFAULT_MEDIA\"},{\"OTIO_SCHEMA\":\"Transition.1\",\
\"name\":\"\",\"metadata\":{},\"transition_type\":\"SMPTE_Dissolve\",\"in_offset\":{\"OTIO_SCHEMA\":\"RationalTime.1\",\
\"rate\":24.0,\"value\":1.0},\"out_offset\":{\"OTIO_SCHEMA\":\"RationalTime.1\",\"rate\":24.0,\
\"value\":2.0}},{\"OTIO_SCHEMA\":\"Clip.2\",\"name\":\"TAPE2\",\"metadata\":{\"cmx_3600\":{\"reel\":\"TAPE2\"}},\
\"source_range\":{\"OTIO_SCHEMA\":\"TimeRange.1\",\"duration\":{\"OTIO_SCHEMA\":\"RationalTime.1\",\
\"rate\":24.0,\"value\":24.0},\"start_time\":{\"OTIO_SCHEMA\":\"RationalTime.1\",\"rate\":24.0,\
\"value\":100.0}},\"effects\":[],\"markers\":[],\"media_references\":{\"DEFAULT_MEDIA\":{\"OTIO_SCHEMA\":\"MissingReference.1\",\
\"name\":\"\",\"metadata\":{},\"available_range\":{\"OTIO_SCHEMA\":\"TimeRange.1\",\"duration\":{\"OTIO_SCHEMA\":\"RationalTime.1\",\
\"rate\":24.0,\"value\":500.0},\"start_time\":{\"OTIO_SCHEMA\":\"RationalTime.1\",\"rate\":24.0,\
\"value\":0.0}}}},\"active_media_reference_key\":\"DEFAULT_MEDIA\"}]},{\"OTIO_SCHEMA\":\"Track.1\",\
\"name\":\"\",\"metadata\":{},\"source_range\":null,\"effects\":[],\"markers\":[],\"kind\":\"Video\",\
\"children\":[{\"OTIO_SCHEMA\":\"Gap.1\",\"name\":\"\",\"metadata\":{},\"source_range\":{\"OTIO_SCHEMA\":\"TimeRange.1\",\
\"duration\":{\"OTIO_SCHEMA\":\"RationalTime.1\",\"rate\":24.0,\"value\":60.0},\"start_time\":{\"OTIO_SCHEMA\":\"RationalTime.1\",\
\"rate\":24.0,\"value\":0.0}},\"effects\":[],\"markers\":[]},{\"OTIO_SCHEMA\":\"Clip.2\",\"name\":\"GFX1\",\
\"metadata\":{\"cmx_3600\":{\"reel\":\"GFX1\"}},\"source_range\":{\"OTIO_SCHEMA\":\"TimeRange.1\",\
\"duration\":{\"OTIO_SCHEMA\":\"RationalTime.1\",\"rate\":24.0,\"value\":6.0},\"start_time\":{\"OTIO_SCHEMA\":\"RationalTime.1\",\
\"rate\":24.0,\"value\":0.0}},\"effects\":[],\"markers\":[],\"media_references\":{\"DEFAULT_MEDIA\":{\"OTIO_SCHEMA\":\"MissingReference.1\",\
\"name\":\"\",\"metadata\":{},\"available_range\":{\"OTIO_SCHEMA\":\"TimeRange.1\",\"duration\":{\"OTIO_SCHEMA\":\"RationalTime.1\",\
\"rate\":24.0,\"value\":16777216.0},\"start_time\":{\"OTIO_SCHEMA\":\"RationalTime.1\",\"rate\":24.0,\
\"value\":0.0}}}},\"active_media_reference_key\":\"DEFAULT_MEDIA\"}]},{\"OTIO_SCHEMA\":\"Track.1\",\
\"name\":\"\",\"metadata\":{},\"source_range\":null,\"effects\":[],\"markers\":[],\"kind\":\"Audio\",\
\"children\":[{\"OTIO_SCHEMA\":\"Clip.2\",\"name\":\"TAPE1\",\"metadata\":{\"cmx_3600\":{\"reel\":\"TAPE1\"}},\
\"source_range\":{\"OTIO_SCHEMA\":\"TimeRange.1\",\"duration\":{\"OTIO_SCHEMA\":\"RationalTime.1\",\
\"rate\":24.0,\"value\":72.0},\"start_time\":{\"OTIO_SCHEMA\":\"RationalTime.1\",\"rate\":24.0,\
\"value\":3600.0}},\"effects\":[],\"markers\":[],\"media_references\":{\"DEFAULT_MEDIA\":{\"OTIO_SCHEMA\":\"MissingReference.1\",\
\"name\":\"\",\"metadata\":{},\"available_range\":{\"OTIO_SCHEMA\":\"TimeRange.1\",\"duration\":{\"OTIO_SCHEMA\":\"RationalTime.1\",\
\"rate\":24.0,\"value\":300.0},\"start_time\":{\"OTIO_SCHEMA\":\"RationalTime.1\",\"rate\":24.0,\
\"value\":3500.0}}}},\"active_media_reference_key\":\"DEFAULT_MEDIA\"}]},{\"OTIO_SCHEMA\":\"Track.1\",\
\"name\":\"\",\"metadata\":{},\"source_range\":null,\"effects\":[],\"markers\":[],\"kind\":\"Audio\",\
\"children\":[{\"OTIO_SCHEMA\":\"Gap.1\",\"name\":\"\",\"metadata\":{},\"source_range\":{\"OTIO_SCHEMA\":\"TimeRange.1\",\
\"duration\":{\"OTIO_SCHEMA\":\"RationalTime.1\",\"rate\":24.0,\"value\":48.0},\"start_time\":{\"OTIO_SCHEMA\":\"RationalTime.1\",\
\"rate\":24.0,\"value\":0.0}},\"effects\":[],\"markers\":[]},{\"OTIO_SCHEMA\":\"Clip.2\",\"name\":\"TAPE2\",\
\"metadata\":{\"cmx_3600\":{\"reel\":\"TAPE2\"}},\"source_range\":{\"OTIO_SCHEMA\":\"TimeRange.1\",\
\"duration\":{\"OTIO_SCHEMA\":\"RationalTime.1\",\"rate\":24.0,\"value\":24.0},\"start_time\":{\"OTIO_SCHEMA\":\"RationalTime.1\",\
\"rate\":24.0,\"value\":100.0}},\"effects\":[],\"markers\":[],\"media_references\":{\"DEFAULT_MEDIA\":{\"OTIO_SCHEMA\":\"MissingReference.1\",\
\"name\":\"\",\"metadata\":{},\"available_range\":{\"OTIO_SCHEMA\":\"TimeRange.1\",\"duration\":{\"OTIO_SCHEMA\":\"RationalTime.1\",\
\"rate\":24.0,\"value\":500.0},\"start_time\":{\"OTIO_SCHEMA\":\"RationalTime.1\",\"rate\":24.0,\
\"value\":0.0}}}},\"active_media_reference_key\":\"DEFAULT_MEDIA\"}]}]}} | A1 2 8 | A1 2 8 | A1 2 9 | A1 2 8
items 15 0 @0 3600 4 link 0.0 dark 2 2 @0 3604 68 link 0.1 | A1 2 9 | A1 2 9 | A1 2 10 | A1 2 9
no 18 V4 | A1 2 10 | A3 2 10 | A1 2 11 | A3 2 10
ok 21 | A3 2 11 | A3 2 11 | A2 2 12 | A3 2 11
ok 23 | A3 2 12 | A4 2 12 | A4 2 13 | A3 2 1
",
    "\
seen 0 @1 3600 12 | A1 3 1 | A3 3 1 | A1 3 2 | A3 3 1
ok 2 item 2 | A1 3 2 | A3 3 2 | A2 3 3 | A3 3 2
ok 7 | A3 3 3 | A3 3 3 | A2 3 4 | A3 3 3
ok 8 by -3 | A1 3 4 | A1 3 4 | A2 3 5 | A1 3 4
point 11 | legal 23 41 | A3 3 5 | A1 3 6 | A3 3 5
ok 15 | A3 3 6 | A3 3 6 | A2 3 7 | A3 3 6
ok 18 item 2 | A3 3 7 | A1 3 7 | A2 3 8 | A1 3 7
seen 19 @0 3601 5 dark 15 | A1 3 8 | A3 3 8 | A1 3 9 | A3 3 8
ok 22 | A3 3 9 | A4 3 9 | A4 3 10 | A3 3 1
",
];

/// Of each station what comes of its session where it was cut after none of its lines, after one, and so on: the lines
/// after these were not sent.
pub(crate) const CUTS: [&str; 4] = [
    "\
A5 0 2
A5 0 2
A5 0 3
A5 0 6
A5 0 6
A5 0 6
A5 0 7
A5 0 8
A5 0 9
legal 23 40
legal 23 41
",
    "\
A5 1 2
A5 1 2
A5 1 3
A5 1 4
A5 1 5
A5 1 6
A5 1 7
A5 1 9
A5 1 9
legal 23 40
legal 23 41
",
    "\
A5 2 4
A5 2 4
A5 2 4
A5 2 4
A5 2 6
A5 2 6
A5 2 11
A5 2 11
A5 2 11
A5 2 11
A5 2 11
A5 2 12
legal 23 41
",
    "\
A5 3 2
A5 3 2
A5 3 3
A5 3 4
A5 3 6
A5 3 6
A5 3 7
A5 3 9
A5 3 9
legal 23 41
",
];
