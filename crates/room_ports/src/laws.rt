// What the words of the contracts come to.
ghost use Rattle.std.specs.Prelude.{◌≡◌, ◌<◌, ◌+◌, ◌-◌, ◌^◌, ◌↔◌, ◌⊎◌, ℕ};
ghost use Rattle.room_ports.specs.Counts.{HasRisen};

/// A count has risen exactly where it is greater than before or stands at the greatest u64.
pub fn risen_law()
    ensures { (before after : ℕ) → after < 2 ^ 64
        → HasRisen before after ↔ ((before < after) ⊎ (after ≡ 2 ^ 64 - 1)) }
{}
