// The numbered slots of a float slice, the arena's or scratch: a summary read, stored, pushed or merged in slot i.
ghost use Rattle.std.specs.Prelude.{◌≡◌, ◌≤◌, length};
ghost use Rattle.feature.specs.Shape.{Shaped};
ghost use Rattle.distance.specs.Distances.{point_of, between_of};
ghost use Rattle.rules.specs.Tree.{push, merge};
ghost use Rattle.rules.specs.Slices.{slot_at, summary_in};
ghost use Rattle.stretch.specs.Slots.{Slot};
ghost use Rattle.arena.specs.Numbered.{SlotIn, summary_at, Changed};

use distance::Distance;
use feature::Summary;
use head::Settings;
use stretch::slot;

// The floats of slot i.
#[tactic(auto, using(crate::specs::Numbered::slot_fits, crate::specs::Numbered::slot_cut))]
fn part(s: Settings, floats: &[f64], i: usize) -> &[f64]
    requires { SlotIn s i (length floats.now) }
    ensures { result.now ≡ slot_at s floats.now i }
{
    let w = s.slot_width();
    let at = i * w;
    &floats[at..at + w]
}

// The summary in slot i.
#[tactic(auto, using(crate::specs::Numbered::slot_at_long), unfolding(crate::specs::Numbered::summary_at))]
pub fn load(s: Settings, floats: &[f64], i: usize) -> Summary
    requires { SlotIn s i (length floats.now) }
    ensures { result ≡ summary_at s floats.now i }
{
    slot::load(s, part(s, floats, i))
}

// The weight in slot i.
#[tactic(auto, using(crate::specs::Numbered::slot_at_long), unfolding(crate::specs::Numbered::summary_at))]
pub fn weight(s: Settings, floats: &[f64], i: usize) -> f64
    requires { SlotIn s i (length floats.now) }
    ensures { result ≡ (summary_at s floats.now i).weight }
{
    slot::weight(s, part(s, floats, i))
}

// The distance k from slot i to a row.
#[tactic(auto, using(crate::specs::Numbered::slot_at_long), unfolding(crate::specs::Numbered::summary_at))]
pub fn to_row(s: Settings, floats: &[f64], i: usize, k: Distance, row: &[f64]) -> f64
    requires { SlotIn s i (length floats.now) × (s.dim ≤ length row.now) }
    ensures { result ≡ point_of k s.feature s.dim (summary_at s floats.now i) row.now }
{
    slot::to_row(s, k, part(s, floats, i), row)
}

// The distance k between slot i and a summary.
#[tactic(auto, using(crate::specs::Numbered::slot_at_long), unfolding(crate::specs::Numbered::summary_at))]
pub fn to_summary(s: Settings, floats: &[f64], i: usize, k: Distance, c: Summary) -> f64
    requires { SlotIn s i (length floats.now) }
    ensures { result ≡ between_of k s.feature s.dim (summary_at s floats.now i) c }
{
    slot::to_summary(s, k, part(s, floats, i), c)
}

// The distance k between slot i and the summary in another slot.
#[tactic(auto, using(crate::specs::Numbered::slot_at_long), unfolding(crate::specs::Numbered::summary_at))]
pub fn to_slot(s: Settings, floats: &[f64], i: usize, k: Distance, o: &[f64]) -> f64
    requires { SlotIn s i (length floats.now) × Slot s o.now }
    ensures { result ≡ between_of k s.feature s.dim (summary_at s floats.now i) (summary_in s o.now) }
{
    slot::between(s, k, part(s, floats, i), o)
}

// The distance k between slots i and j.
#[tactic(auto, using(crate::specs::Numbered::slot_at_long), unfolding(crate::specs::Numbered::summary_at))]
pub fn between(s: Settings, floats: &[f64], i: usize, j: usize, k: Distance) -> f64
    requires { SlotIn s i (length floats.now) × SlotIn s j (length floats.now) }
    ensures { result ≡ between_of k s.feature s.dim (summary_at s floats.now i) (summary_at s floats.now j) }
{
    slot::between(s, k, part(s, floats, i), part(s, floats, j))
}

// The summary c, stored in slot i.
#[tactic(auto, using(crate::specs::Numbered::slot_long))]
pub fn store(s: Settings, floats: &mut [f64], i: usize, c: Summary)
    requires { SlotIn s i (length floats.old) × Shaped s.feature s.dim c }
    ensures { Changed s (λ _. c) i floats.old floats.new }
{
    let w = s.slot_width();
    let at = i * w;
    slot::store(s, c, &mut floats[at..at + w]);
}

// A row, pushed into slot i where it stands.
#[tactic(auto, using(crate::specs::Numbered::slot_long))]
pub fn push(s: Settings, floats: &mut [f64], i: usize, row: &[f64])
    requires { SlotIn s i (length floats.old) × (s.dim ≤ length row.now) }
    ensures { Changed s (push s row.now) i floats.old floats.new }
{
    let w = s.slot_width();
    let at = i * w;
    slot::push(s, &mut floats[at..at + w], row);
}

// The summary c, merged into slot i.
#[tactic(auto, using(crate::specs::Numbered::slot_long))]
pub fn merge(s: Settings, floats: &mut [f64], i: usize, c: Summary)
    requires { SlotIn s i (length floats.old) × Shaped s.feature s.dim c }
    ensures { Changed s (λ x. merge s x c) i floats.old floats.new }
{
    let w = s.slot_width();
    let at = i * w;
    slot::merge(s, &mut floats[at..at + w], c);
}
