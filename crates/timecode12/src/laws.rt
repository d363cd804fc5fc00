// Laws of labels, with nothing to run.
ghost use Rattle.std.specs.Prelude.{◌≡◌, ℕ, ◌<◌, length};
ghost use Rattle.timecode12.specs.Numbers.{Counted};
ghost use Rattle.timecode12.specs.Labels.{day_of, IsLabelOf, HasLargeField, IsDropped};
ghost use Rattle.timecode12.specs.Spelling.{IsMark, HasTwoDigits, Spells, text_of};

use crate::label::Label;

/// Frames and labels are inverse to each other over the whole day, by every counting: each frame of
/// the day has one label, each label that the counting has is that of one frame, and no other label is
/// in the day. `Counting::label_of` and `Counting::frame_of` answer by this one relation.
pub fn frames_and_labels()
    ensures each_frame { (c : Counted) (f : ℕ) → f < length (day_of c) → (l : Label)
        × IsLabelOf c f l }
    ensures one_label { (c : Counted) (f : ℕ) (l k : Label) → IsLabelOf c f l → IsLabelOf c f k
        → l ≡ k }
    ensures each_label { (c : Counted) (l : Label) → (HasLargeField c l → ⊥) → (IsDropped c l → ⊥)
        → (f : ℕ) × IsLabelOf c f l }
    ensures one_frame { (c : Counted) (l : Label) (f g : ℕ) → IsLabelOf c f l → IsLabelOf c g l
        → f ≡ g }
    ensures within { (c : Counted) (f : ℕ) (l : Label) → IsLabelOf c f l → f < length (day_of c) }
    ensures small { (c : Counted) (f : ℕ) (l : Label) → IsLabelOf c f l → HasLargeField c l → ⊥ }
    ensures not_dropped { (c : Counted) (f : ℕ) (l : Label) → IsLabelOf c f l → IsDropped c l → ⊥ }
{}

/// Each label's text spells that label and no other, with one mark before the frames or the other.
/// `read_label` and `label_text` answer by this spelling.
pub fn texts_and_labels()
    ensures read_again { (l : Label) (mark : ℕ) → HasTwoDigits l → IsMark mark
        → Spells (text_of l mark) l }
    ensures one_label { (l k : Label) (mark : ℕ) → Spells (text_of l mark) k → l ≡ k }
{}
