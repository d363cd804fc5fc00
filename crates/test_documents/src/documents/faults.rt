// Documents that are refused: each cause of each code, and the place that is told.

use super::short::written;
use super::{placed, said};
use std::alloc::Global;
use std::test::Fail;

/// Each row: the fault, and a document with its place; or `opens`.
const FAULTS: &str = "J1 {@'Timeline.1',^}
J1 {@'Timeline.1'^
J1 ^\u{feff}
J1 !{@'Clip.1','note':^NaN}?
J1 !{@'Clip.1','note':-^Infinity}?
J1 {'name':'^\\ud800'}
J2 [[[[[[[[[[[[[[[[[[[[[[[[[[[[[[[[[[[[[[[[[[[[[[[[[[[[[[[[[[[[[[[[^[
O14 !^{@'Clip.1','note':1e99}?
J3 !{@'Gap.1','source_range':{@'TimeRange.1','duration':{@'RationalTime.1','rate':24,'value':^1e99}}}?
J3 !{@'Gap.1','source_range':{@'TimeRange.1','duration':{@'RationalTime.1','rate':^0.1234567890123456789}}}?
O1 {@^'Timeline.2'}
O1 {@'Timeline.1','global_start_time':{@^'RationalTime.2'}}
O1 {@'Timeline.1','tracks':{@^'Stack.2'}}
O1 {@'Timeline.1','tracks':${@^'SerializableCollection.1'}*}
O1 !{@^'Clip.3'}?
O1 !{@^'SerializableObjectRef.1'}?
O1 !${@^'Marker.2'}*?
O1 !{@'Gap.1','source_range':{@^'TimeRange.2'}}?
O2 ^{}
O2 ^{@'Timeline.1'}
O2 {@'Timeline.1','tracks':^{}}
O2 {@'Timeline.1','tracks':^{@'Stack.1'}}
O2 {@'Timeline.1','tracks':$^{@'Track.1'}*}
O2 {@'Timeline.1','tracks':$^{@'Track.1','kind':'Audio'}*}
O2 {@'Timeline.1','tracks':$^{@'Track.1','effects':[{@'FreezeFrame.1'}]}*}
O2 !^{}?
O2 !^{@'Stack.1'}?
O2 !^{@'Track.1'}?
O2 !$^{@'Track.1'}*?
O2 !{@'Clip.1','source_range':^{@'TimeRange.1'}}?
O2 !{@'Clip.1','source_range':^{@'TimeRange.1','start_time':<0>}}?
O2 !{@'Clip.1','source_range':{@'TimeRange.1','start_time':^{@'RationalTime.1','value':0}}}?
O2 !{@'Clip.1','source_range':{@'TimeRange.1','start_time':^{@'RationalTime.1','rate':24}}}?
O2 !#,^{@'Transition.1'},#?
O2 !#,^{%},#?
O2 !#,^{%,'in_offset':<1>},#?
O3 ^[]
O3 {@^1}
O3 {@^'Stack.1'}
O3 {@'Timeline.1','tracks':^null}
O3 {@'Timeline.1','tracks':null,'global_start_time':^0}
O3 {@'Timeline.1','tracks':{@^'Track.1'}}
O3 {@'Timeline.1','tracks':{@'Stack.1','children':^{}}}
O3 {@'Timeline.1','tracks':$^1*}
O3 {@'Timeline.1','tracks':${@^'Clip.1'}*}
O3 {@'Timeline.1','tracks':${@^'Clip.2'}*}
O3 {@'Timeline.1','tracks':${@'Track.1','enabled':^1}*}
O3 {@'Timeline.1','tracks':${@'Track.1','kind':^'video'}*}
O3 {@'Timeline.1','tracks':${@'Track.1','kind':^1}*}
O3 {@'Timeline.1','tracks':${@'Track.1','kind':'Video','children':^null}*}
O3 !^1?
O3 !{@^'Timeline.1'}?
O3 !{@'Clip.1','enabled':^0}?
O3 !{@'Clip.1','effects':^{}}?
O3 !{@'Clip.1','source_range':^1}?
O3 !{@'Clip.1','source_range':{@^'RationalTime.1'}}?
O3 !{@'Clip.1','source_range':{@'TimeRange.1','start_time':^1}}?
O3 !{@'Clip.1','source_range':{@'TimeRange.1','start_time':{@'RationalTime.1','rate':^null}}}?
O3 !{@'Clip.1','source_range':{@'TimeRange.1','start_time':{@'RationalTime.1','rate':24,'value':^'1'}}}?
O3 !{@'Clip.1','source_range':(16777215;1),'media_reference':^1}?
O3 !{@'Clip.1','media_reference':{'available_range':^1}}?
O3 !{@'Clip.2','source_range':(16777215;1),'media_references':^[],'active_media_reference_key':1}?
O3 !{@'Clip.2','media_references':{'DEFAULT_MEDIA':1},'active_media_reference_key':^1}?
O3 !{@'Clip.2','media_references':null,'active_media_reference_key':^{}}?
O3 !{@'Clip.2','media_references':{'PROXY':1,'DEFAULT_MEDIA':^[]}}?
O3 !{@'Clip.2','media_references':{'PROXY':{'available_range':^1},'DEFAULT_MEDIA':1},'active_media_reference_key':'PROXY'}?
O3 !{@'Stack.1','children':^null}?
O3 !${@^'Transition.1'}*?
O3 !#,{@'Transition.1','transition_type':^'Wipe'},#?
O3 !#,{@'Transition.1','transition_type':^1},#?
O3 !#,{%,'in_offset':^1},#?
O4 {@'Timeline.1','global_start_time':^<0.5>}
O4 {@'Timeline.1','global_start_time':^<2147483648>}
O4 !{@'Clip.1','source_range':{@'TimeRange.1','start_time':^<0.5>,'duration':1}}?
O4 !{@'Clip.1','source_range':{@'TimeRange.1','start_time':<0>,'duration':^<0.5>}}?
O4 !{@'Clip.1','source_range':{@'TimeRange.1','start_time':^{@'RationalTime.1','rate':30,'value':1}}}?
O4 !{@'Gap.1','source_range':{@'TimeRange.1','duration':^<-0.5>}}?
O4 !#,{%,'in_offset':^<0.5>},#?
O4 !#,{%,'in_offset':<1>,'out_offset':^<0.5>},#?
O4 !{@'Clip.1','media_reference':{'available_range':^(2147483647;1)}}?
O4 !{@'Clip.2','media_references':{'DEFAULT_MEDIA':{'available_range':^(2147483647;1)}}}?
O5 !{@'Gap.1','source_range':{@'TimeRange.1','duration':{@'RationalTime.1','rate':^0}}}?
O5 !{@'Gap.1','source_range':{@'TimeRange.1','duration':{@'RationalTime.1','rate':^-24}}}?
O5 !{@'Gap.1','source_range':{@'TimeRange.1','duration':{@'RationalTime.1','rate':^119.88011988011988}}}?
O5 !{@'Gap.1','source_range':{@'TimeRange.1','duration':{@'RationalTime.1','rate':^1e12}}}?
O6 !{@'Clip.1','effects':[1,{},{@3},^{@'FreezeFrame.1'}]}?
O6 !{@'Gap.1','effects':[^{@'LinearTimeWarp.1'}]}?
O6 !{@'Stack.1','effects':[^{@'TimeEffect.1'}]}?
O6 !${@'Track.1','effects':[^{@'TimeEffect.2'}]}*?
O14 !^{@'Clip.1','effects':[{@'Blur.1'},{@'TimeEffect'}]}?
O7 {@'Timeline.1','tracks':${@'Track.1','enabled':^false}*}
O7 !{@'Clip.1','enabled':^false,'effects':1}?
O7 !{@'Stack.1','enabled':^false}?
O7 !${@'Track.1','enabled':^false}*?
O8 !^{@'Transition.1'},#?
O8 !#,^{@'Transition.1'}?
O8 !#,^{@'Transition.1'},{@'Transition.1'},#?
O8 !~,^{@'Transition.1'},~?
O14 !{@'Transition.1'},^{@'Gap.1'}?
O9 !#,{%,'in_offset':^<-1>,'out_offset':<-1>},#?
O9 !#,{%,'in_offset':<1>,'out_offset':^<-1>},#?
O9 !#,^{%,'in_offset':<11>,'out_offset':<0>},#?
O9 !#,^{%,'in_offset':<0>,'out_offset':<21>},#?
O9 !{@'Clip.1','source_range':(10;20),'media_reference':{'available_range':(0;30)}},^{%,'in_offset':<0>,'out_offset':<1>},#?
O9 !#,^{%,'in_offset':<0>,'out_offset':<5>},~,~?
O9 !#,^{%,'in_offset':<0>,'out_offset':<7>},~,~?
O9 !~,=,^{%,'in_offset':<4>,'out_offset':<0>},#?
O9 !#,=,^{%,'in_offset':<1>,'out_offset':<0>},#?
O9 !#,^{%,'in_offset':<1>,'out_offset':<0>},=,~?
O9 !#,{%,'in_offset':<0>,'out_offset':<11>},#,^{%,'in_offset':<10>,'out_offset':<0>},#?
opens !#,{%,'in_offset':<0>,'out_offset':<10>},#,{%,'in_offset':<10>,'out_offset':<0>},#?
opens !~,=,{%,'in_offset':<3>,'out_offset':<0>},#?
opens !#,=,{%,'in_offset':<0>,'out_offset':<0>},#?
O10 {@'Timeline.1','tracks':{@'Stack.1','enabled':false,'children':^[]}}
opens {@'Timeline.1','tracks':{@'Stack.1','children':[+,+,+,+,+,+,+,+,+,+,+,+,+,+,+,+,+,+,+,+,+,+,+,+,+,+,+,+,+,+,+,+]}}
O10 {@'Timeline.1','tracks':{@'Stack.1','children':^[+,+,+,+,+,+,+,+,+,+,+,+,+,+,+,+,+,+,+,+,+,+,+,+,+,+,+,+,+,+,+,+,+]}}
opens {@'Timeline.1','tracks':$+,+,+,+,+,+,+,+,+,+,+,+,+,+,+,+,+,+,+,+,+,+,+,+,+,+,+,+,+,+,+,+*}
O11 {@'Timeline.1','global_start_time':^<-1>}
O11 {@'Timeline.1','global_start_time':^<2073600>}
opens {@'Timeline.1','global_start_time':<2073599>,'tracks':$+*}
O11 !{@'Clip.1','source_range':^(16777215;2),'media_reference':1}?
O11 !{@'Clip.2','source_range':^(16777215;2),'media_references':1}?
O11 !{@'Clip.1','source_range':^(-1;2)}?
opens !{@'Gap.1','source_range':(0;2592000)}?
O11 {@'Timeline.1','tracks':$^{@'Track.1','kind':'Video','children':[{@'Gap.1','source_range':(0;2592000)},{@'Clip.1','source_range':(0;1)}]}*}
opens !${@'Gap.1','source_range':(0;2592000)}*?
O11 !$^{@'Gap.1','source_range':(0;2592001)}*?
O11 !$^{@'Track.1','source_range':(0;2592001),'children':[{@'Gap.1','source_range':(0;2592001)}]}*?
O11 !^{@'Track.1','children':[{@'Gap.1','source_range':(0;2592001)}]}?
O12 {@'Timeline.1','tracks':${@'Track.1','kind':'Audio','children':[^{@'Stack.1','enabled':false}]}*}
O12 {@'Timeline.1','tracks':${@'Track.1','kind':'Audio','children':[^{@'Track.1'}]}*}
opens !$$$$$$$$~********?
O13 !$$$$$$$$^$~*********?
O13 !$$$$$$$${@'Track.1','children':[^{@'Track.1'}]}********?
O14 !^{@'Clip.1'}?
O14 !{@'Clip.1','source_range':(0;1),'media_reference':{'available_range':{@'TimeRange.1','start_time':<0>,'duration':^<-5>}}}?
O14 !^{@'Clip.1','media_reference':{'available_range':(5;0)}}?
O14 !^{@'Clip.1','media_references':{'DEFAULT_MEDIA':{'available_range':(0;5)}}}?
O14 !^{@'Clip.2','media_reference':{'available_range':(0;5)}}?
O14 !^{@'Clip.2','media_references':{'DEFAULT_MEDIA':{'available_range':(0;5)}},'active_media_reference_key':'PROXY'}?
O14 !^{@'Clip.2','media_references':{'PROXY':{'available_range':(0;5)}}}?
O14 !^{@'Gap.1'}?
O14 !{@'Gap.1','source_range':{@'TimeRange.1','duration':^<-1>}}?
O14 !{@'Clip.1','source_range':{@'TimeRange.1','start_time':<0>,'duration':^<-1>}}?
O14 !{@'Clip.1','media_reference':{'available_range':{@'TimeRange.1','start_time':<0>,'duration':^<-0.5>}}}?
O14 !{@'Stack.1','source_range':^(0;4),'children':[~]}?
O14 !{@'Track.1','source_range':^(-1;1),'children':[~]}?
O14 !${@'Track.1','source_range':^(1;3),'children':[~]}*?
O15 !#,^{@'Transition.1'},$~*?
O15 !$~*,^{@'Transition.1'},#?
O16 {@'Timeline.1','tracks':{@'Stack.1','source_range':^1}}
O16 {@'Timeline.1','tracks':${@'Track.1','source_range':^{}}*}";

// What a row wants to be said.
fn wanted(alloc: Global, code: &str, short: &str) -> Result<String, Fail> {
    match short.split_once('^') {
        Some((before, _)) => Ok(placed(alloc, code, written(alloc, before)?.len())?),
        None => Ok(String::from_str(alloc, code)?),
    }
}

#[test]
fn the_first_fault_of_a_document(rt: HostRuntime) -> Result<(), Fail> {
    let alloc = rt.alloc();
    for row in FAULTS.lines() {
        match row.split_once(' ') {
            Some((code, short)) => {
                let text = written(alloc, short)?;
                let said = said(alloc, text.as_bytes())?;
                let wanted = wanted(alloc, code, short)?;
                assert_eq!(rt; said.as_str(), wanted.as_str(), "{row}");
            }
            None => {}
        }
    }
    Ok(())
}
