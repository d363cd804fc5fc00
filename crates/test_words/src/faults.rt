// Faults in words.
use line_words::NumberFault;
use ratio_time::{TimeFault, TooFar};
use std::test::Fail;
use timecode12::{LabelFault, PastDay};

#[test]
fn faults_in_words(rt: HostRuntime) -> Result<(), Fail> {
    let alloc = rt.alloc();
    let said = format!(in alloc;
        "{}; {}; {}; {}; {}",
        TimeFault::NotOnFrame,
        TooFar,
        LabelFault::DroppedNumber,
        PastDay,
        NumberFault::TooLarge
    )?;
    let wanted =
        "the moment is between two frames; the frame is more than 2147483647 from 0; drop-frame counting leaves this number out; the frame is past the end of the day; the number is too large for 32 bits";
    assert_eq!(rt; said.as_str(), wanted);
    Ok(())
}
