// How many frames the units of time have, and the arithmetic of labels.
ghost use Rattle.std.specs.Prelude.{◌≡◌, ◌<◌, ◌≤◌, ◌+◌, ◌-◌, ◌*◌, ◌%◌};
ghost use Rattle.timecode12.specs.Places.{ten_minutes, hour, place_of};

use crate::label::Label;

/// The frames of a second, and how many numbers a minute lacks that is no multiple of ten.
#[derive(Clone, Copy)]
pub struct Units {
    pub numbers: u32,
    pub dropped: u32,
    pub ghost numbers_in: { (24 ≤ numbers) × (numbers ≤ 30) },
    pub ghost dropped_in: { dropped ≤ 2 },
}

impl Units {
    /// The frames of a minute that lacks no number.
    fn whole_minute(&self) -> u32
        ensures { result ≡ 60 * self.now.numbers }
    {
        60 * self.numbers
    }

    /// The frames of ten minutes, of which the first is whole.
    fn ten_minutes(&self) -> u32
        ensures { result ≡ ten_minutes self.now.numbers self.now.dropped }
    {
        10 * self.whole_minute() - 9 * self.dropped
    }

    /// The frames of an hour.
    fn hour(&self) -> u32
        ensures { result ≡ hour self.now.numbers self.now.dropped }
    {
        6 * self.ten_minutes()
    }

    /// The frames of a day of 24 hours.
    pub fn day(&self) -> u32
        ensures { result ≡ 24 * hour self.now.numbers self.now.dropped }
    {
        24 * self.hour()
    }

    /// The label of a frame of the day.
    pub fn label_at(&self, frame: u32) -> Label
        requires { frame < 24 * hour self.now.numbers self.now.dropped }
        ensures place { place_of self.now.numbers self.now.dropped result ≡ frame }
        ensures hours { result.hours < 24 }
        ensures minutes { result.minutes < 60 }
        ensures seconds { result.seconds < 60 }
        ensures frames { result.frames < self.now.numbers }
        ensures stays { 0 < result.minutes % 10
            → self.now.dropped ≤ result.seconds * self.now.numbers + result.frames }
    {
        let in_hour = frame % self.hour();
        let (minute, in_minute) = self.minute_at(in_hour % self.ten_minutes());
        Label {
            hours: (frame / self.hour()) as u8,
            minutes: (in_hour / self.ten_minutes() * 10 + minute) as u8,
            seconds: (in_minute / self.numbers) as u8,
            frames: (in_minute % self.numbers) as u8,
        }
    }

    /// The minute of a frame of ten minutes, and the frame's number in it.
    fn minute_at(&self, frame: u32) -> (u32, u32)
        requires { frame < ten_minutes self.now.numbers self.now.dropped }
        ensures minute { result.0 ≤ 9 }
        ensures place { result.0 * (60 * self.now.numbers - self.now.dropped) + result.1 ≡ frame }
        ensures within { result.1 < 60 * self.now.numbers }
        ensures stays { 0 < result.0 → self.now.dropped ≤ result.1 }
    {
        let whole = self.whole_minute();
        if frame < whole {
            return (0, frame);
        }
        let short = whole - self.dropped;
        let later = frame - whole;
        (1 + later / short, self.dropped + later % short)
    }

    /// The frame of a label of the day.
    pub fn frame_at(&self, label: &Label) -> u32
        requires hours { label.now.hours < 24 }
        requires minutes { label.now.minutes < 60 }
        requires seconds { label.now.seconds < 60 }
        requires frames { label.now.frames < self.now.numbers }
        ensures { result ≡ place_of self.now.numbers self.now.dropped label.now }
    {
        let short = self.whole_minute() - self.dropped;
        let tens = u32::from(label.minutes / 10);
        let minute = u32::from(label.minutes % 10);
        let in_minute = u32::from(label.seconds) * self.numbers + u32::from(label.frames);
        u32::from(label.hours) * self.hour()
            + (tens * self.ten_minutes() + (minute * short + in_minute))
    }
}
