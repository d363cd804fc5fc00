// The document of the cut, and the one that its list makes.

/// The document. Its cut has a dissolve, a title over the second clip, and sound of its own from two tapes.
pub const DOCUMENT: &str = "\
{\"OTIO_SCHEMA\":\"Timeline.1\",\"metadata\":{\"made\":\"a\"},\"name\":\"reel one\",\"global_start_time\":{\
\"OTIO_SCHEMA\":\"RationalTime.1\",\"rate\":24.0,\"value\":86400.0},\"tracks\":{\"OTIO_SCHEMA\":\"Stack.1\",\
\"name\":\"tracks\",\"source_range\":null,\"effects\":[],\"markers\":[],\"metadata\":{\
},\"children\":[{\"OTIO_SCHEMA\":\"Track.1\",\"name\":\"V1\",\"kind\":\"Video\",\"source_range\":null,\
\"effects\":[],\"markers\":[],\"children\":[{\"OTIO_SCHEMA\":\"Clip.1\",\"name\":\"shot a\",\
\"enabled\":true,\"effects\":[],\"markers\":[{\"OTIO_SCHEMA\":\"Marker.2\",\"name\":\"look\"}],\
\"metadata\":{\"cmx_3600\":{\"reel\":\"TAPE1\"}},\"source_range\":{\"OTIO_SCHEMA\":\"TimeRange.1\",\
\"duration\":{\"OTIO_SCHEMA\":\"RationalTime.1\",\"rate\":24.0,\"value\":48.0},\"start_time\":{\
\"OTIO_SCHEMA\":\"RationalTime.1\",\"rate\":24.0,\"value\":3600.0}},\"media_reference\":{\
\"OTIO_SCHEMA\":\"ExternalReference.1\",\"target_url\":\"a.mov\",\"available_range\":{\
\"OTIO_SCHEMA\":\"TimeRange.1\",\"duration\":{\"OTIO_SCHEMA\":\"RationalTime.1\",\"rate\":24.0,\
\"value\":300.0},\"start_time\":{\"OTIO_SCHEMA\":\"RationalTime.1\",\"rate\":24.0,\"value\":3500.0}}}},\
{\"OTIO_SCHEMA\":\"Transition.1\",\"name\":\"\",\"metadata\":{},\"transition_type\":\"SMPTE_Dissolve\",\
\"in_offset\":{\"OTIO_SCHEMA\":\"RationalTime.1\",\"rate\":24.0,\"value\":1.0},\"out_offset\":{\
\"OTIO_SCHEMA\":\"RationalTime.1\",\"rate\":24.0,\"value\":2.0}},{\"OTIO_SCHEMA\":\"Clip.1\",\
\"name\":\"shot b\",\"metadata\":{\"cmx_3600\":{\"reel\":\"TAPE2\"}},\"source_range\":{\
\"OTIO_SCHEMA\":\"TimeRange.1\",\"duration\":{\"OTIO_SCHEMA\":\"RationalTime.1\",\"rate\":24.0,\
\"value\":24.0},\"start_time\":{\"OTIO_SCHEMA\":\"RationalTime.1\",\"rate\":24.0,\"value\":100.0}},\
\"media_reference\":{\"OTIO_SCHEMA\":\"ExternalReference.1\",\"target_url\":\"b.mov\",\
\"available_range\":{\"OTIO_SCHEMA\":\"TimeRange.1\",\"duration\":{\"OTIO_SCHEMA\":\"RationalTime.1\",\
\"rate\":24.0,\"value\":500.0},\"start_time\":{\"OTIO_SCHEMA\":\"RationalTime.1\",\"rate\":24.0,\
\"value\":0.0}}}}]},{\"OTIO_SCHEMA\":\"Track.1\",\"name\":\"V2\",\"kind\":\"Video\",\"source_range\":null,\
\"children\":[{\"OTIO_SCHEMA\":\"Gap.1\",\"source_range\":{\"OTIO_SCHEMA\":\"TimeRange.1\",\
\"duration\":{\"OTIO_SCHEMA\":\"RationalTime.1\",\"rate\":24.0,\"value\":60.0},\"start_time\":{\
\"OTIO_SCHEMA\":\"RationalTime.1\",\"rate\":24.0,\"value\":0.0}}},{\"OTIO_SCHEMA\":\"Clip.1\",\
\"name\":\"GFX1\",\"source_range\":{\"OTIO_SCHEMA\":\"TimeRange.1\",\"duration\":{\"OTIO_SCHEMA\":\"RationalTime.1\",\
\"rate\":24.0,\"value\":6.0},\"start_time\":{\"OTIO_SCHEMA\":\"RationalTime.1\",\"rate\":24.0,\
\"value\":0.0}},\"media_reference\":{\"OTIO_SCHEMA\":\"MissingReference.1\",\"available_range\":null}}]},\
{\"OTIO_SCHEMA\":\"Track.1\",\"name\":\"A1\",\"kind\":\"Audio\",\"source_range\":null,\
\"children\":[{\"OTIO_SCHEMA\":\"Clip.1\",\"name\":\"sound a\",\"metadata\":{\"cmx_3600\":{\
\"reel\":\"TAPE1\"}},\"source_range\":{\"OTIO_SCHEMA\":\"TimeRange.1\",\"duration\":{\
\"OTIO_SCHEMA\":\"RationalTime.1\",\"rate\":48000.0,\"value\":144000.0},\"start_time\":{\
\"OTIO_SCHEMA\":\"RationalTime.1\",\"rate\":48000.0,\"value\":7200000.0}},\"media_reference\":{\
\"OTIO_SCHEMA\":\"ExternalReference.1\",\"target_url\":\"a.mov\",\"available_range\":{\
\"OTIO_SCHEMA\":\"TimeRange.1\",\"duration\":{\"OTIO_SCHEMA\":\"RationalTime.1\",\"rate\":24.0,\
\"value\":300.0},\"start_time\":{\"OTIO_SCHEMA\":\"RationalTime.1\",\"rate\":24.0,\"value\":3500.0}}}}]},\
{\"OTIO_SCHEMA\":\"Track.1\",\"name\":\"A2\",\"kind\":\"Audio\",\"source_range\":null,\
\"children\":[{\"OTIO_SCHEMA\":\"Gap.1\",\"source_range\":{\"OTIO_SCHEMA\":\"TimeRange.1\",\
\"duration\":{\"OTIO_SCHEMA\":\"RationalTime.1\",\"rate\":24.0,\"value\":48.0},\"start_time\":{\
\"OTIO_SCHEMA\":\"RationalTime.1\",\"rate\":24.0,\"value\":0.0}}},{\"OTIO_SCHEMA\":\"Clip.1\",\
\"name\":\"sound b\",\"metadata\":{\"cmx_3600\":{\"reel\":\"TAPE2\"}},\"source_range\":{\
\"OTIO_SCHEMA\":\"TimeRange.1\",\"duration\":{\"OTIO_SCHEMA\":\"RationalTime.1\",\"rate\":24.0,\
\"value\":24.0},\"start_time\":{\"OTIO_SCHEMA\":\"RationalTime.1\",\"rate\":24.0,\"value\":100.0}},\
\"media_reference\":{\"OTIO_SCHEMA\":\"ExternalReference.1\",\"target_url\":\"b.mov\",\
\"available_range\":{\"OTIO_SCHEMA\":\"TimeRange.1\",\"duration\":{\"OTIO_SCHEMA\":\"RationalTime.1\",\
\"rate\":24.0,\"value\":500.0},\"start_time\":{\"OTIO_SCHEMA\":\"RationalTime.1\",\"rate\":24.0,\
\"value\":0.0}}}}]}]}}";

/// The document that the list with reels by their own names makes.
pub const IMPORTED: &str = "\
{\"OTIO_SCHEMA\":\"Timeline.1\",\"name\":\"\",\"metadata\":{},\
\"global_start_time\":{\"OTIO_SCHEMA\":\"RationalTime.1\",\"rate\":24.0,\"value\":86400.0},\
\"tracks\":{\"OTIO_SCHEMA\":\"Stack.1\",\"name\":\"tracks\",\"metadata\":{},\"source_range\":null,\
\"effects\":[],\"markers\":[],\"children\":[{\"OTIO_SCHEMA\":\"Track.1\",\"name\":\"\",\"metadata\":{},\
\"source_range\":null,\"effects\":[],\"markers\":[],\"kind\":\"Video\",\
\"children\":[{\"OTIO_SCHEMA\":\"Clip.2\",\"name\":\"TAPE1\",\
\"metadata\":{\"cmx_3600\":{\"reel\":\"TAPE1\"}},\"source_range\":{\"OTIO_SCHEMA\":\"TimeRange.1\",\
\"duration\":{\"OTIO_SCHEMA\":\"RationalTime.1\",\"rate\":24.0,\"value\":47.0},\
\"start_time\":{\"OTIO_SCHEMA\":\"RationalTime.1\",\"rate\":24.0,\"value\":3600.0}},\"effects\":[],\
\"markers\":[],\"media_references\":{\"DEFAULT_MEDIA\":{\"OTIO_SCHEMA\":\"MissingReference.1\",\
\"name\":\"\",\"metadata\":{},\"available_range\":{\"OTIO_SCHEMA\":\"TimeRange.1\",\
\"duration\":{\"OTIO_SCHEMA\":\"RationalTime.1\",\"rate\":24.0,\"value\":16777216.0},\
\"start_time\":{\"OTIO_SCHEMA\":\"RationalTime.1\",\"rate\":24.0,\"value\":0.0}}}},\
\"active_media_reference_key\":\"DEFAULT_MEDIA\"},{\"OTIO_SCHEMA\":\"Clip.2\",\"name\":\"TAPE1\",\
\"metadata\":{\"cmx_3600\":{\"reel\":\"TAPE1\"}},\"source_range\":{\"OTIO_SCHEMA\":\"TimeRange.1\",\
\"duration\":{\"OTIO_SCHEMA\":\"RationalTime.1\",\"rate\":24.0,\"value\":3.0},\
\"start_time\":{\"OTIO_SCHEMA\":\"RationalTime.1\",\"rate\":24.0,\"value\":3647.0}},\"effects\":[],\
\"markers\":[],\"media_references\":{\"DEFAULT_MEDIA\":{\"OTIO_SCHEMA\":\"MissingReference.1\",\
\"name\":\"\",\"metadata\":{},\"available_range\":{\"OTIO_SCHEMA\":\"TimeRange.1\",\
\"duration\":{\"OTIO_SCHEMA\":\"RationalTime.1\",\"rate\":24.0,\"value\":16777216.0},\
\"start_time\":{\"OTIO_SCHEMA\":\"RationalTime.1\",\"rate\":24.0,\"value\":0.0}}}},\
\"active_media_reference_key\":\"DEFAULT_MEDIA\"},{\"OTIO_SCHEMA\":\"Transition.1\",\"name\":\"\",\
\"metadata\":{},\"transition_type\":\"SMPTE_Dissolve\",\"in_offset\":{\"OTIO_SCHEMA\":\"RationalTime.1\",\
\"rate\":24.0,\"value\":3.0},\"out_offset\":{\"OTIO_SCHEMA\":\"RationalTime.1\",\"rate\":24.0,\
\"value\":0.0}},{\"OTIO_SCHEMA\":\"Clip.2\",\"name\":\"TAPE2\",\
\"metadata\":{\"cmx_3600\":{\"reel\":\"TAPE2\"}},\"source_range\":{\"OTIO_SCHEMA\":\"TimeRange.1\",\
\"duration\":{\"OTIO_SCHEMA\":\"RationalTime.1\",\"rate\":24.0,\"value\":10.0},\
\"start_time\":{\"OTIO_SCHEMA\":\"RationalTime.1\",\"rate\":24.0,\"value\":102.0}},\"effects\":[],\
\"markers\":[],\"media_references\":{\"DEFAULT_MEDIA\":{\"OTIO_SCHEMA\":\"MissingReference.1\",\
\"name\":\"\",\"metadata\":{},\"available_range\":{\"OTIO_SCHEMA\":\"TimeRange.1\",\
\"duration\":{\"OTIO_SCHEMA\":\"RationalTime.1\",\"rate\":24.0,\"value\":16777216.0},\
\"start_time\":{\"OTIO_SCHEMA\":\"RationalTime.1\",\"rate\":24.0,\"value\":0.0}}}},\
\"active_media_reference_key\":\"DEFAULT_MEDIA\"},{\"OTIO_SCHEMA\":\"Clip.2\",\"name\":\"GFX1\",\
\"metadata\":{\"cmx_3600\":{\"reel\":\"GFX1\"}},\"source_range\":{\"OTIO_SCHEMA\":\"TimeRange.1\",\
\"duration\":{\"OTIO_SCHEMA\":\"RationalTime.1\",\"rate\":24.0,\"value\":6.0},\
\"start_time\":{\"OTIO_SCHEMA\":\"RationalTime.1\",\"rate\":24.0,\"value\":0.0}},\"effects\":[],\
\"markers\":[],\"media_references\":{\"DEFAULT_MEDIA\":{\"OTIO_SCHEMA\":\"MissingReference.1\",\
\"name\":\"\",\"metadata\":{},\"available_range\":{\"OTIO_SCHEMA\":\"TimeRange.1\",\
\"duration\":{\"OTIO_SCHEMA\":\"RationalTime.1\",\"rate\":24.0,\"value\":16777216.0},\
\"start_time\":{\"OTIO_SCHEMA\":\"RationalTime.1\",\"rate\":24.0,\"value\":0.0}}}},\
\"active_media_reference_key\":\"DEFAULT_MEDIA\"},{\"OTIO_SCHEMA\":\"Clip.2\",\"name\":\"TAPE2\",\
\"metadata\":{\"cmx_3600\":{\"reel\":\"TAPE2\"}},\"source_range\":{\"OTIO_SCHEMA\":\"TimeRange.1\",\
\"duration\":{\"OTIO_SCHEMA\":\"RationalTime.1\",\"rate\":24.0,\"value\":6.0},\
\"start_time\":{\"OTIO_SCHEMA\":\"RationalTime.1\",\"rate\":24.0,\"value\":118.0}},\"effects\":[],\
\"markers\":[],\"media_references\":{\"DEFAULT_MEDIA\":{\"OTIO_SCHEMA\":\"MissingReference.1\",\
\"name\":\"\",\"metadata\":{},\"available_range\":{\"OTIO_SCHEMA\":\"TimeRange.1\",\
\"duration\":{\"OTIO_SCHEMA\":\"RationalTime.1\",\"rate\":24.0,\"value\":16777216.0},\
\"start_time\":{\"OTIO_SCHEMA\":\"RationalTime.1\",\"rate\":24.0,\"value\":0.0}}}},\
\"active_media_reference_key\":\"DEFAULT_MEDIA\"}]},{\"OTIO_SCHEMA\":\"Track.1\",\"name\":\"\",\
\"metadata\":{},\"source_range\":null,\"effects\":[],\"markers\":[],\"kind\":\"Audio\",\
\"children\":[{\"OTIO_SCHEMA\":\"Clip.2\",\"name\":\"TAPE1\",\
\"metadata\":{\"cmx_3600\":{\"reel\":\"TAPE1\"}},\"source_range\":{\"OTIO_SCHEMA\":\"TimeRange.1\",\
\"duration\":{\"OTIO_SCHEMA\":\"RationalTime.1\",\"rate\":24.0,\"value\":72.0},\
\"start_time\":{\"OTIO_SCHEMA\":\"RationalTime.1\",\"rate\":24.0,\"value\":3600.0}},\"effects\":[],\
\"markers\":[],\"media_references\":{\"DEFAULT_MEDIA\":{\"OTIO_SCHEMA\":\"MissingReference.1\",\
\"name\":\"\",\"metadata\":{},\"available_range\":{\"OTIO_SCHEMA\":\"TimeRange.1\",\
\"duration\":{\"OTIO_SCHEMA\":\"RationalTime.1\",\"rate\":24.0,\"value\":16777216.0},\
\"start_time\":{\"OTIO_SCHEMA\":\"RationalTime.1\",\"rate\":24.0,\"value\":0.0}}}},\
\"active_media_reference_key\":\"DEFAULT_MEDIA\"}]},{\"OTIO_SCHEMA\":\"Track.1\",\"name\":\"\",\
\"metadata\":{},\"source_range\":null,\"effects\":[],\"markers\":[],\"kind\":\"Audio\",\
\"children\":[{\"OTIO_SCHEMA\":\"Gap.1\",\"name\":\"\",\"metadata\":{},\
\"source_range\":{\"OTIO_SCHEMA\":\"TimeRange.1\",\"duration\":{\"OTIO_SCHEMA\":\"RationalTime.1\",\
\"rate\":24.0,\"value\":48.0},\"start_time\":{\"OTIO_SCHEMA\":\"RationalTime.1\",\"rate\":24.0,\
\"value\":0.0}},\"effects\":[],\"markers\":[]},{\"OTIO_SCHEMA\":\"Clip.2\",\"name\":\"TAPE2\",\
\"metadata\":{\"cmx_3600\":{\"reel\":\"TAPE2\"}},\"source_range\":{\"OTIO_SCHEMA\":\"TimeRange.1\",\
\"duration\":{\"OTIO_SCHEMA\":\"RationalTime.1\",\"rate\":24.0,\"value\":24.0},\
\"start_time\":{\"OTIO_SCHEMA\":\"RationalTime.1\",\"rate\":24.0,\"value\":100.0}},\"effects\":[],\
\"markers\":[],\"media_references\":{\"DEFAULT_MEDIA\":{\"OTIO_SCHEMA\":\"MissingReference.1\",\
\"name\":\"\",\"metadata\":{},\"available_range\":{\"OTIO_SCHEMA\":\"TimeRange.1\",\
\"duration\":{\"OTIO_SCHEMA\":\"RationalTime.1\",\"rate\":24.0,\"value\":16777216.0},\
\"start_time\":{\"OTIO_SCHEMA\":\"RationalTime.1\",\"rate\":24.0,\"value\":0.0}}}},\
\"active_media_reference_key\":\"DEFAULT_MEDIA\"}]}]}}
";
