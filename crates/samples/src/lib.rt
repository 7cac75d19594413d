// The values that a difference is searched by: home's and the sketch's, at the first sample points.
#![tactic(auto)]

ghost use Rattle.std.specs.Prelude.{◌≤◌, length};
ghost use Rattle.rules.specs.Numbers.{most_samples};

// The first m values of each side. Behind them may stand what no one reads.
#[derive(Clone, Copy)]
pub struct Samples<'a> {
    pub m: usize,
    pub home: &'a [u32],
    pub sketch: &'a [u32],
    pub ghost few: { m ≤ most_samples },
    pub ghost home_long: { m ≤ length home.now },
    pub ghost sketch_long: { m ≤ length sketch.now },
}
