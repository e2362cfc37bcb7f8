// The nearest of a list, by any distance.
ghost use Rattle.std.specs.Prelude.{◌≡◌, ℕ, ◌<◌, length, get_or, Float};
ghost use Rattle.rules.specs.Descent.{closest};
ghost use Rattle.descent.specs.Nearest.{MayAsk, Gives};

// The number of a list that is nearest: the first, then any later one strictly closer.
pub fn nearest<F: Fn(usize) -> f64>(list: &[u32], distance: F) -> usize
    requires filled { 0 < length list.now }
    requires may_ask { MayAsk (F.pre distance) list.now }
    ensures value { (f : ℕ → Float) → Gives (F.post distance) f list.now → result ≡ closest f list.now }
    ensures listed { (k : ℕ) × (k < length list.now) × (result ≡ get_or list.now k 0) }
{
    let mut best = list[0] as usize;
    let mut least = distance(best);
    for c in &list[1..] {
        let c = *c as usize;
        let d = distance(c);
        if d < least {
            least = d;
            best = c;
        }
    }
    best
}
