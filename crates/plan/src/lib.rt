// Plans, and the sketches that are well-formed under one.
#![tactic(auto)]

ghost use Rattle.std.specs.Prelude.{◌≡◌, ◌≤◌, false, length};
ghost use Rattle.rules.specs.Numbers.{most_samples, samples, plan_of, unknown_plan};
ghost use Rattle.rules.specs.Sketches.{blank, well_formed};
ghost use Rattle.rules.specs.Filled.{sketch_from};
ghost use Rattle.plan.specs.Faults.{Value, Unused, Fault, Faults};

use residue::Residue;
use rules::{LIST_LIMIT, MOST_SAMPLES, PLANS, Sketch, USUAL_PLAN, USUAL_REQUEST};

// m for each plan code, in bytes: the table is copied wherever it is used.
const SAMPLES: [u8; 16] = [1, 2, 3, 4, 6, 8, 10, 12, 16, 20, 24, 28, 32, 40, 48, 64];

// How many samples a plan has; none above the last plan code.
pub fn samples(plan: u8) -> usize
    ensures { result ≡ samples plan }
{
    SAMPLES
        .get(usize::from(plan))
        .map_or(0, |&m| usize::from(m))
}

// Whether a request names no plan.
pub fn unknown(request: u32) -> bool
    ensures { result ≡ unknown_plan request }
{
    PLANS <= request && request != USUAL_REQUEST
}

// The plan code that the sketch of a request carries.
pub fn code_of(request: u32) -> u8
    requires { unknown_plan request ≡ false }
    ensures { result ≡ plan_of request }
{
    if request == USUAL_REQUEST {
        USUAL_PLAN
    } else {
        request as u8
    }
}

// 0 where v may stand in a slot of a sample, and nowhere else: v − 1 is below p − 1. A number, so that no slot makes
// a branch.
fn bad_value(v: u32) -> u32
    ensures { Fault Value v result }
{
    v.wrapping_sub(1) / (Residue::MODULUS - 1)
}

// 0 where the first m slots are good, and nowhere else.
fn bad_values(m: usize, values: &[u32; MOST_SAMPLES]) -> u32
    requires { m ≤ most_samples }
    ensures { Faults Value 0 m values.now result }
{
    let mut bad = 0;
    for &value in &values[..m] {
        bad |= bad_value(value);
    }
    bad
}

// The same for the others, which are all 0.
fn bad_rests(m: usize, values: &[u32; MOST_SAMPLES]) -> u32
    requires { m ≤ most_samples }
    ensures { Faults Unused m most_samples values.now result }
{
    let mut bad = 0;
    for &rest in &values[m..] {
        bad |= rest;
    }
    bad
}

// Whether the sketch of these parts is well-formed. All slots are looked at, those of the samples in one pass and the
// others in the next, so that the compiler takes several at a time.
pub fn formed(plan: u8, size: u32, values: &[u32; MOST_SAMPLES]) -> bool
    requires { length values.now ≡ most_samples }
    ensures { result ≡ well_formed (sketch_from plan size values.now) }
{
    if PLANS <= u32::from(plan) || LIST_LIMIT < size {
        return false;
    }
    let m = samples(plan);
    bad_values(m, values) | bad_rests(m, values) == 0
}

// Whether a sketch is well-formed: 64 slots it has by its type.
pub fn well_formed(s: Sketch) -> bool
    ensures { result ≡ well_formed s }
{
    formed(s.plan, s.size, &s.values)
}

// The blank sketch, which a refused sketch or read returns.
pub fn blank() -> Sketch
    ensures { result ≡ blank }
{
    Sketch {
        plan: 0,
        size: 0,
        values: [0u32; MOST_SAMPLES],
    }
}
