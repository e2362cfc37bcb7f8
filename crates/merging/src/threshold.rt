// The growth of the threshold.
ghost use Rattle.std.specs.Prelude.{◌≡◌};
ghost use Rattle.rules.specs.Rebuild.{widened, grown_threshold};

// The widest finite gap so far.
#[tactic(auto, unfolding(rules::specs::Rebuild::widened))]
pub fn widen(widest: f64, gap: f64) -> f64
    ensures { result ≡ widened widest gap }
{
    if binary64::is_finite(gap) && widest < gap {
        gap
    } else {
        widest
    }
}

// The widest gap times 1 + 2^−50, at most the largest float, if that is larger.
#[tactic(auto, unfolding(rules::specs::Rebuild::grown_threshold))]
pub fn grown(threshold: f64, widest: f64) -> f64
    ensures { result ≡ grown_threshold threshold widest }
{
    let wide = widest * 1.0000000000000009;
    let most = 1.7976931348623157e308;
    let grown = if most < wide { most } else { wide };
    if threshold < grown { grown } else { threshold }
}
