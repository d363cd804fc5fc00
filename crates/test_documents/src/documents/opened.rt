// What documents open, and that what is written of it opens the same again.

use super::reading;
use super::short::written;
use composables::{ItemView, Reels, Table, Track};
use frame_meaning::{Side, What};
use otio_json::{DocCode, DocFault, Opening, WriteFault, write_timeline};
use std::alloc::{AllocError, Global};
use std::test::Fail;

/// Each row: a document, and what it opens: the start, the kinds, the reels, the media and the items of each track.
pub(super) const OPENED: &str =
    "{@'Timeline.1','global_start_time':<86400.0>,'tracks':$+*} opens 86400; Video;;;;
{@'Timeline.1','metadata':{'made':'a'},'name':'reel one','global_start_time':<86400.0>,'tracks':{@'Stack.1','name':'tracks','source_range':null,'effects':[],'markers':[],'metadata':{},'children':[{@'Track.1','name':'V1','kind':'Video','source_range':null,'effects':[],'markers':[],'children':[{@'Clip.1','name':'shot a','enabled':true,'effects':[],'markers':[{@'Marker.2','name':'look'}],'metadata':{'cmx_3600':{'reel':'TAPE1'}},'source_range':(3600.0;48.0),'media_reference':{@'ExternalReference.1','target_url':'a.mov','available_range':(3500.0;300.0)}},{%,'name':'','metadata':{},'in_offset':<1.0>,'out_offset':<2.0>},{@'Clip.1','name':'shot b','metadata':{'cmx_3600':{'reel':'TAPE2'}},'source_range':(100.0;24.0),'media_reference':{@'ExternalReference.1','target_url':'b.mov','available_range':(0.0;500.0)}}]},{@'Track.1','name':'V2','kind':'Video','source_range':null,'children':[{@'Gap.1','source_range':(0.0;60.0)},{@'Clip.1','name':'GFX1','source_range':(0.0;6.0),'media_reference':{@'MissingReference.1','available_range':null}}]},{@'Track.1','name':'A1','kind':'Audio','source_range':null,'children':[{@'Clip.1','name':'sound a','metadata':{'cmx_3600':{'reel':'TAPE1'}},'source_range':{@'TimeRange.1','duration':{@'RationalTime.1','rate':48000.0,'value':144000.0},'start_time':{@'RationalTime.1','rate':48000.0,'value':7200000.0}},'media_reference':{@'ExternalReference.1','target_url':'a.mov','available_range':(3500.0;300.0)}}]},{@'Track.1','name':'A2','kind':'Audio','source_range':null,'children':[{@'Gap.1','source_range':(0.0;48.0)},{@'Clip.1','name':'sound b','metadata':{'cmx_3600':{'reel':'TAPE2'}},'source_range':(100.0;24.0),'media_reference':{@'ExternalReference.1','target_url':'b.mov','available_range':(0.0;500.0)}}]}]}} opens 86400; Video Video Audio Audio; TAPE1 TAPE2 GFX1; 0:3500-3800 1:0-500 2:0-16777216; @0:3600+48 mix1+2 @1:100+24; gap+60 @2:0+6; @0:3600+72; gap+48 @1:100+24;
{@'Timeline.1','metadata':{'made':'a'},'name':'reel one','global_start_time':<86400.0>,'tracks':{@'Stack.1','name':'tracks','source_range':null,'effects':[],'markers':[],'metadata':{},'children':[{@'Track.1','name':'V1','kind':'Video','source_range':null,'effects':[],'markers':[],'children':[{@'Clip.2','name':'shot a','enabled':true,'effects':[],'markers':[{@'Marker.2','name':'look'}],'metadata':{'cmx_3600':{'reel':'TAPE1'}},'source_range':(3600.0;48.0),'media_references':{'DEFAULT_MEDIA':{@'ExternalReference.1','target_url':'a.mov','available_range':(3500.0;300.0)}}},{%,'name':'','metadata':{},'in_offset':<1.0>,'out_offset':<2.0>},{@'Clip.2','name':'shot b','metadata':{'cmx_3600':{'reel':'TAPE2'}},'source_range':(100.0;24.0),'media_references':{'DEFAULT_MEDIA':{@'ExternalReference.1','target_url':'b.mov','available_range':(0.0;500.0)}}}]},{@'Track.1','name':'V2','kind':'Video','source_range':null,'children':[{@'Gap.1','source_range':(0.0;60.0)},{@'Clip.2','name':'GFX1','source_range':(0.0;6.0),'media_references':{'DEFAULT_MEDIA':{@'MissingReference.1','available_range':null}}}]},{@'Track.1','name':'A1','kind':'Audio','source_range':null,'children':[{@'Clip.2','name':'sound a','metadata':{'cmx_3600':{'reel':'TAPE1'}},'source_range':{@'TimeRange.1','duration':{@'RationalTime.1','rate':48000.0,'value':144000.0},'start_time':{@'RationalTime.1','rate':48000.0,'value':7200000.0}},'media_references':{'DEFAULT_MEDIA':{@'ExternalReference.1','target_url':'a.mov','available_range':(3500.0;300.0)}}}]},{@'Track.1','name':'A2','kind':'Audio','source_range':null,'children':[{@'Gap.1','source_range':(0.0;48.0)},{@'Clip.2','name':'sound b','metadata':{'cmx_3600':{'reel':'TAPE2'}},'source_range':(100.0;24.0),'media_references':{'DEFAULT_MEDIA':{@'ExternalReference.1','target_url':'b.mov','available_range':(0.0;500.0)}}}]}]}} opens 86400; Video Video Audio Audio; TAPE1 TAPE2 GFX1; 0:3500-3800 1:0-500 2:0-16777216; @0:3600+48 mix1+2 @1:100+24; gap+60 @2:0+6; @0:3600+72; gap+48 @1:100+24;
!{@'Clip.2','source_range':(7;5),'media_references':{'DEFAULT_MEDIA':{'available_range':(0;10)}},'active_media_reference_key':'PROXY'},{@'Clip.2','media_references':{'PROXY':{'available_range':(0;10)},'DEFAULT_MEDIA':{'available_range':(5;10)}},'active_media_reference_key':'PROXY'},{@'Clip.2','media_references':{'PROXY':{'available_range':(0;10)},'DEFAULT_MEDIA':{'available_range':(5;10)}},'active_media_reference_key':null},{@'Clip.2','media_references':{'PROXY':{'available_range':(0;10)},'DEFAULT_MEDIA':{'available_range':(5;10)}}},{@'Clip.2','media_references':{'A':{'available_range':(0;1)},'B':{'available_range':(0;2)},'A':{'available_range':(0;3)}},'active_media_reference_key':'A'},{@'Clip.2','source_range':(1;2),'media_references':null},{@'Clip.2','source_range':(1;2),'media_references':{'DEFAULT_MEDIA':null}},{@'Clip.2','source_range':(1;2),'media_reference':{'available_range':(0;9)}},{@'Clip.1','media_reference':{'available_range':(0;4)},'media_references':1,'active_media_reference_key':1}? opens 0; Video; AX; 0:0-16777216 0:0-10 0:5-15 0:0-3 0:0-4; @0:7+5 @1:0+10 @2:5+10 @2:5+10 @3:0+3 @0:1+2 @0:1+2 @0:1+2 @4:0+4;
!${@'Clip.2','media_references':{'DEFAULT_MEDIA':{'available_range':(0;10)}}}*? opens 0; Video; AX; 0:0-10; #0:0+10;
!{@'Clip.2','source_range':(7;5),'media_reference':{'available_range':(0;10)}}? opens 0; Video; AX; 0:0-16777216; @0:7+5;
!{@'Clip.2','source_range':(7;5),'media_references':{'':{'available_range':(0;20)},'DEFAULT_MEDIA':{'available_range':(0;10)}},'active_media_reference_key':''}? opens 0; Video; AX; 0:0-20; @0:7+5;
!{@'Clip.1','media_reference':{'available_range':(5;10)}},{@'Clip.1','source_range':null,'media_reference':{'available_range':(5;10)}}? opens 0; Video; AX; 0:5-15; @0:5+10 @0:5+10;
!{@'Clip.1','source_range':(16777215;1),'media_reference':{'available_range':(0;16777217)}}? opens 0; Video; AX; 0:0-16777216; @0:16777215+1;
!{@'Clip.1','name':'N','source_range':(7;5),'metadata':{'cmx_3600':{'reel':''}}}? opens 0; Video; ; 0:0-16777216; @0:7+5;
!{@'Clip.1','source_range':(7;5),'media_reference':{@'SerializableObjectRef.1','id':'x'}}? opens 0; Video; AX; 0:0-16777216; @0:7+5;
!#,#,=,~,=,~? opens 0; Video; AX; 0:0-100; @0:10+20 @0:10+20 gap+6;
!$~,#*,{@'Track.1','source_range':(1;2),'children':[$#*,~]}? opens 0; Video; AX; 0:0-100; #0:0+20 #2:1+2;
{@'Timeline.1','global_start_time':<2073599>,'tracks':$+*} opens 2073599; Video;;;;
!{@'Clip.1','source_range':{@'TimeRange.1','start_time':<0>,'duration':{@'RationalTime.1','rate':24,'value':1}}},{@'Clip.1','source_range':{@'TimeRange.1','start_time':<0>,'duration':{@'RationalTime.1','rate':24.0,'value':2.0}}},{@'Clip.1','source_range':{@'TimeRange.1','start_time':<0>,'duration':{@'RationalTime.1','rate':2.4e1,'value':30e-1}}},{@'Clip.1','source_range':{@'TimeRange.1','start_time':<0>,'duration':{@'RationalTime.1','rate':240E-1,'value':0.4E1}}},{@'Clip.1','source_range':{@'TimeRange.1','start_time':<0>,'duration':{@'RationalTime.1','rate':23.996,'value':5}}},{@'Clip.1','source_range':{@'TimeRange.1','start_time':<0>,'duration':{@'RationalTime.1','rate':12,'value':3}}},{@'Clip.1','source_range':{@'TimeRange.1','start_time':<0>,'duration':{@'RationalTime.1','rate':48000,'value':14000}}},{@'Clip.1','source_range':{@'TimeRange.1','start_time':<0>,'duration':{@'RationalTime.1','rate':23.976,'value':2400e1}}},{@'Clip.1','source_range':{@'TimeRange.1','start_time':<0>,'duration':{@'RationalTime.1','rate':23.98,'value':24000}}},{@'Clip.1','source_range':{@'TimeRange.1','start_time':<0>,'duration':{@'RationalTime.1','rate':23.976023976023978,'value':24000}}},{@'Clip.1','source_range':{@'TimeRange.1','start_time':<0>,'duration':{@'RationalTime.1','rate':29.97,'value':30000}}},{@'Clip.1','source_range':{@'TimeRange.1','start_time':<0>,'duration':{@'RationalTime.1','rate':29.97002997002997,'value':30000}}},{@'Clip.1','source_range':{@'TimeRange.1','start_time':<0>,'duration':{@'RationalTime.1','rate':47.952,'value':48000}}},{@'Clip.1','source_range':{@'TimeRange.1','start_time':<0>,'duration':{@'RationalTime.1','rate':59.94,'value':60000}}},{@'Clip.1','source_range':{@'TimeRange.1','start_time':<0>,'duration':{@'RationalTime.1','rate':1e-6,'value':0.000001}}}? opens 0; Video; AX; 0:0-16777216; @0:0+1 @0:0+2 @0:0+3 @0:0+4 @0:0+5 @0:0+6 @0:0+7 @0:0+24024 @0:0+24024 @0:0+24024 @0:0+24024 @0:0+24024 @0:0+24024 @0:0+24024 @0:0+24;
!~,#,{%,'in_offset':<2>,'out_offset':<0>},#? opens 0; Video; AX; 0:0-100; gap+3 @0:10+20 mix2+0 @0:10+20;
!$~*,#,$$~,#*,{@'Track.1','source_range':(1;2),'children':[~]}*? opens 0; Video; AX; 0:0-100; #0:0+3 @0:10+20 #2:0+20;";

// A number after these words.
fn put_number(alloc: Global, out: &mut String, words: &str, number: u32) -> Result<(), AllocError> {
    out.push_str(words)?;
    out.push_str(format!(in alloc; "{number}")?.as_str())
}

// An item or gap: its dissolve, its thing and source frame, and its length.
fn put_item(alloc: Global, out: &mut String, view: &ItemView) -> Result<(), Fail> {
    match view.mark {
        Some(mark) => out.push_str(format!(in alloc; " mix{}+{}", mark.a, mark.b)?.as_str())?,
        None => {}
    }
    let item = match view.first {
        Side::Dark => format!(in alloc; " gap+{}", view.len)?,
        Side::Pic {
            what: What::Media(m),
            source,
        } => format!(in alloc; " @{m}:{source}+{}", view.len)?,
        Side::Pic {
            what: What::Nest(j),
            source,
        } => format!(in alloc; " #{j}:{source}+{}", view.len)?,
    };
    out.push_str(item.as_str())?;
    Ok(())
}

// The items and gaps of a track.
fn put_track(alloc: Global, out: &mut String, track: &Track) -> Result<(), Fail> {
    for view in track.items(alloc)? {
        put_item(alloc, out, &view)?;
    }
    out.push_str(";")?;
    Ok(())
}

// The kinds of the tracks.
fn put_kinds(alloc: Global, out: &mut String, table: &Table) -> Result<(), AllocError> {
    for kind in table.kinds.as_slice() {
        out.push_str(format!(in alloc; " {kind:?}")?.as_str())?;
    }
    out.push_str(";")
}

// The names of the reels.
fn put_reels(out: &mut String, reels: &Reels) -> Result<(), AllocError> {
    for reel in 0..reels.count() {
        if let Some(name) = reels.name(reel) {
            out.push_str(" ")?;
            out.push_str(name)?;
        }
    }
    out.push_str(";")
}

// The media entries: each by its reel and its range.
fn put_media(alloc: Global, out: &mut String, table: &Table) -> Result<(), AllocError> {
    for media in table.media.as_slice() {
        put_number(alloc, out, " ", media.reel)?;
        put_number(alloc, out, ":", media.from)?;
        put_number(alloc, out, "-", media.to)?;
    }
    out.push_str(";")
}

// An opening as a row of `OPENED` tells it.
fn told(alloc: Global, opening: &Opening) -> Result<String, Fail> {
    let mut out = String::new(alloc);
    put_number(alloc, &mut out, "", opening.start)?;
    out.push_str(";")?;
    put_kinds(alloc, &mut out, &opening.table)?;
    put_reels(&mut out, &opening.table.reels)?;
    put_media(alloc, &mut out, &opening.table)?;
    for track in opening.tracks.as_slice() {
        put_track(alloc, &mut out, track)?;
    }
    Ok(out)
}

// What a document opens, as a row tells it.
fn opened(alloc: Global, text: &[u8]) -> Result<String, Fail> {
    let opening = reading(alloc, text)?;
    told(alloc, &opening)
}

#[test]
fn what_a_document_opens(rt: HostRuntime) -> Result<(), Fail> {
    let alloc = rt.alloc();
    for row in OPENED.lines() {
        match row.split_once(" opens ") {
            Some((short, wanted)) => {
                let text = written(alloc, short)?;
                let told = opened(alloc, text.as_bytes())?;
                assert_eq!(rt; told.as_str(), wanted, "{short}");
            }
            None => {}
        }
    }
    Ok(())
}

// The text that is written of an opening.
pub(super) fn text_of(alloc: Global, opening: &Opening) -> Result<Vec<u8>, WriteFault> {
    write_timeline(
        alloc,
        &opening.table,
        opening.tracks.as_slice(),
        &opening.counting,
        opening.start,
    )
}

// The text that is written of what a document opens.
fn rewritten(alloc: Global, text: &[u8]) -> Result<Vec<u8>, Fail> {
    let opening = reading(alloc, text)?;
    Ok(text_of(alloc, &opening)?)
}

const PLAIN: &str =
    "{\"OTIO_SCHEMA\":\"Timeline.1\",\"name\":\"\",\"metadata\":{},\"global_start_time\":{\"OTIO_SCHEMA\":\"RationalTime.1\",\"rate\":24.0,\"value\":0.0},\"tracks\":{\"OTIO_SCHEMA\":\"Stack.1\",\"name\":\"tracks\",\"metadata\":{},\"source_range\":null,\"effects\":[],\"markers\":[],\"children\":[{\"OTIO_SCHEMA\":\"Track.1\",\"name\":\"\",\"metadata\":{},\"source_range\":null,\"effects\":[],\"markers\":[],\"kind\":\"Video\",\"children\":[]}]}}";

#[test]
fn a_plain_opening_is_written(rt: HostRuntime) -> Result<(), Fail> {
    let alloc = rt.alloc();
    let text = text_of(alloc, &Opening::plain(alloc, 1, 1)?)?;
    assert_eq!(rt; text.as_slice(), PLAIN.as_bytes());
    Ok(())
}

// What the text that is written of a document opens, and whether the same text is written of that.
fn opened_again(alloc: Global, short: &str) -> Result<(String, bool), Fail> {
    let text = written(alloc, short)?;
    let first = rewritten(alloc, text.as_bytes())?;
    let again = rewritten(alloc, &first)?;
    let is_same = again.as_slice() == first.as_slice();
    Ok((opened(alloc, &first)?, is_same))
}

#[test]
fn what_is_written_opens_the_same(rt: HostRuntime) -> Result<(), Fail> {
    let alloc = rt.alloc();
    for row in OPENED.lines() {
        match row.split_once(" opens ") {
            Some((short, wanted)) => {
                let (told, is_same) = opened_again(alloc, short)?;
                assert_eq!(rt; told.as_str(), wanted, "{short}");
                assert!(rt; is_same, "{short}");
            }
            None => {}
        }
    }
    Ok(())
}

// The first byte at which this text can be cut without being refused, just there, as one that ends too early.
fn readable_front(alloc: Global, text: &[u8]) -> Option<usize> {
    for cut in 0..text.len() {
        match reading(alloc, &text[..cut]) {
            Err(
                DocFault::Refused {
                    code: DocCode::J1,
                    at,
                },
            ) => {
                if at as usize != cut {
                    return Some(cut);
                }
            }
            _ => return Some(cut),
        }
    }
    None
}

#[test]
fn a_document_that_is_cut_short(rt: HostRuntime) -> Result<(), Fail> {
    let alloc = rt.alloc();
    for row in OPENED.lines() {
        match row.split_once(" opens ") {
            Some((short, _)) => {
                let text = written(alloc, short)?;
                assert_eq!(rt; readable_front(alloc, text.as_bytes()), None, "{short}");
            }
            None => {}
        }
    }
    Ok(())
}
