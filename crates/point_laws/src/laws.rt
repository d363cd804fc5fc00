// What a reply names.
ghost use Rattle.std.specs.Prelude.{◌≡◌, ◌<◌, ◌^◌, ◌++◌, ℕ, List, Option, None, Some, codes, decimal};
ghost use Rattle.cut_room.specs.declared.answers.Answer.TheVariants as answer;
ghost use Rattle.cut_room.specs.declared.answers.Sight.TheVariants as sight;
ghost use Rattle.cut_steps.specs.CutSteps.{CutStep, StepDone, StepRefusal};
ghost use Rattle.edit_calls.specs.declared.asks.AskRefusal.{AskRefusal};
ghost use Rattle.edit_calls.specs.declared.asks.Seen.{Seen};
ghost use Rattle.journal_text.specs.NewsTexts.{news_text_of};
ghost use Rattle.protocol_parts.specs.declared.line_fault.LineFault.{LineFault};
ghost use Rattle.recorded_sessions.specs.Naming.{point_named};
ghost use Rattle.reply_text.specs.Replies.{answer_text_of, fault_of};
ghost use Rattle.reply_text.specs.Sights.{sight_text_of};
ghost use Rattle.room_core.specs.declared.entry.Entry.{Entry};

/// The point that a reply names, as `recorded_sessions::point_named` reads it, is the one at which the room answered:
/// of an edit that was done, refused or met a full journal, of a question that was answered or refused, of `point`,
/// of the news of an entry, of a document, of one that is too long, and where there are fewer entries than were asked
/// for. A line that is none of the table, and one for which there was no memory, is answered by no point.
pub fn replies_name_their_points()
    ensures done { (n : ℕ) (done : StepDone) → n < 2 ^ 32
        → point_named (answer_text_of (answer.Done n done)) ≡ Some n }
    ensures refused { (n : ℕ) (refusal : StepRefusal) → n < 2 ^ 32
        → point_named (answer_text_of (answer.Refused n refusal)) ≡ Some n }
    ensures full { (n : ℕ) → n < 2 ^ 32 → point_named (answer_text_of (answer.Full n)) ≡ Some n }

    ensures seen { (n : ℕ) (seen : Seen) → n < 2 ^ 32
        → point_named (sight_text_of (sight.Seen n seen)) ≡ Some n }
    ensures unseen { (n : ℕ) (refusal : AskRefusal) → n < 2 ^ 32
        → point_named (sight_text_of (sight.Refused n refusal)) ≡ Some n }
    ensures point { (n : ℕ) → n < 2 ^ 32 → point_named (codes "point " ++ decimal n) ≡ Some n }

    ensures news { (place n : ℕ) (entry : Option (Entry CutStep)) → place < 2 ^ 32 → n < 2 ^ 32
        → point_named (news_text_of place n entry) ≡ Some n }
    ensures document { (n : ℕ) (text : List ℕ) → n < 2 ^ 32
        → point_named (codes "otio " ++ decimal n ++ codes " " ++ text) ≡ Some n }
    ensures too_long { (n : ℕ) → n < 2 ^ 32
        → point_named (codes "no " ++ decimal n ++ codes " V4") ≡ Some n }
    ensures past_end { (n : ℕ) → n < 2 ^ 32
        → point_named (codes "no " ++ decimal n ++ codes " V3") ≡ Some n }

    ensures none { (fault : LineFault) → point_named (fault_of fault) ≡ None }
{}
