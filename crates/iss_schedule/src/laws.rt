//! Laws about texts and schedules.
ghost use Rattle.std.specs.Prelude.{◌≡◌, ℕ, List};
ghost use Rattle.iss_schedule.specs.BadLines.{IsBadLine};
ghost use Rattle.iss_schedule.specs.Schedules.{IsSchedule};
ghost use Rattle.iss_schedule.specs.declared.errors.LineFault.{LineFault};
ghost use Rattle.iss_schedule.specs.declared.schedules.Schedule.{Schedule};

/// A text and its schedule determine each other, and a text with a bad line is the text of no schedule.
pub fn texts_and_schedules()
    ensures one_text { (b c : List ℕ) (s : Schedule) → IsSchedule b s → IsSchedule c s → b ≡ c }
    ensures one_schedule { (b : List ℕ) (s t : Schedule) → IsSchedule b s → IsSchedule b t → s ≡ t }
    ensures refused { (b : List ℕ) (line : ℕ) (why : LineFault) (s : Schedule) → IsBadLine b line why →
        ¬ IsSchedule b s }
    ensures one_refusal { (b : List ℕ) (k l : ℕ) (v w : LineFault) → IsBadLine b k v → IsBadLine b l w →
        (k ≡ l) × (v ≡ w) }
{}
