// The sizes of a sketch and of home's list, the gap d between them, a signed number, and the degrees that it gives.
//
// Never a subtraction of unsigned lengths: home may be the larger side as well as the smaller.
#![tactic(auto)]

ghost use Rattle.std.specs.Prelude.{◌≡◌, ◌+◌, ◌≤◌};
ghost use Rattle.std.proofs.Math.IntN.{sub_ℕ};
ghost use Rattle.rules.specs.Numbers.{most_samples, list_limit};
ghost use Rattle.rules.specs.Differences.{outside};
ghost use Rattle.gap.specs.Gap.{degree_of};

// How many keys the sketch was made of, and how many are at home.
#[derive(Clone, Copy)]
pub struct Sizes {
    pub sketch: usize,
    pub home: usize,
    pub ghost sketch_short: { sketch ≤ list_limit },
    pub ghost home_short: { home ≤ list_limit },
}

impl Sizes {
    // How much larger the sketch's set is than home's.
    pub fn gap(self) -> i32
        ensures { result ≡ sub_ℕ self.sketch self.home }
    {
        self.sketch as i32 - self.home as i32
    }

    // Refusal 12: whether the gap is below −m or above m.
    pub fn too_large(self, m: usize) -> bool
        requires { m ≤ most_samples }
        ensures { result ≡ outside m (sub_ℕ self.sketch self.home) }
    {
        let d = self.gap();
        let most = m as i32;
        d < -most || most < d
    }

    // The two sides exchanged, which gives −d for d.
    pub fn exchanged(self) -> Sizes
        ensures { (result.sketch ≡ self.home) × (result.home ≡ self.sketch) }
    {
        Sizes {
            sketch: self.home,
            home: self.sketch,
        }
    }

    // (m + d) / 2, and (m − d) / 2 of the sides exchanged. Once the gap is in range the sum is not negative, and
    // halving rounds it down.
    pub fn degree(self, m: usize) -> usize
        requires { (m ≤ most_samples) × (self.home ≤ self.sketch + m) }
        ensures { result ≡ degree_of m self.sketch self.home }
    {
        let sum = m as i32 + self.gap();
        (sum / 2) as usize
    }
}
