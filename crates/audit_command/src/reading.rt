// The files that were recorded, read one after another.
ghost use Rattle.std.specs.Prelude.{IfErr, IfOk, map};
ghost use Rattle.command_files.specs.Unopened.{OnlyRead};
ghost use Rattle.command_words.specs.Records.{named_by};
ghost use Rattle.audit_command.specs.Reads.{Reads, ReadsRecording, StopsReads, StopsRecording};
ghost use Rattle.audit_command.specs.Stations.{recording_told};

use crate::record_names::{MAX_LINES, MAX_REPLIES};
use crate::records::RecordTexts;
use command_words::RecordNames;
use room_files::{FileFault, Files};
use std::alloc::Global;

// Reads the two files of a station.
fn read_record<F: Files>(
    alloc: Global,
    files: &mut F,
    names: &RecordNames<'_>,
) -> Result<RecordTexts, FileFault>
    ensures reads { IfOk result (λ texts. ReadsRecording (F.told files.old) (named_by names.now)
        (recording_told texts) (F.told files.new)) }
    ensures stops { IfErr result (λ fault. StopsRecording (F.told files.old) (named_by names.now)
        fault (F.told files.new)) }
    ensures same { OnlyRead (F.told files.old) (F.told files.new) }
{
    let sent = files.read_file(alloc, names.lines, MAX_LINES)?;
    let got = files.read_file(alloc, names.replies, MAX_REPLIES)?;
    Ok(RecordTexts {
        sent,
        got,
        is_cut: names.is_cut,
    })
}

/// Reads the files of all stations, in their order; of a station first its lines.
pub(crate) fn read_records<F: Files>(
    alloc: Global,
    files: &mut F,
    records: &[RecordNames<'_>],
) -> Result<Vec<RecordTexts>, FileFault>
    ensures reads { IfOk result (λ texts. Reads (F.told files.old) (map named_by records.now)
        (map recording_told texts.items) (F.told files.new)) }
    ensures stops { IfErr result (λ fault. StopsReads (F.told files.old) (map named_by records.now)
        fault (F.told files.new)) }
    ensures same { OnlyRead (F.told files.old) (F.told files.new) }
{
    let mut all = match Vec::with_capacity(alloc, records.len()) {
        Ok(all) => all,
        Err(_) => return Err(FileFault::Memory),
    };
    for names in records {
        let texts = match read_record(alloc, files, names) {
            Ok(texts) => texts,
            Err(fault) => return Err(fault),
        };
        all.push_reserved(texts);
    }
    Ok(all)
}
