// Reconciling: from the dome's sketch and the home list, exactly the difference, or an honest refusal.
#![tactic(auto)]

ghost use Rattle.std.specs.Prelude.{◌≡◌, Err};
ghost use Rattle.rules.specs.Sketches.{well_formed};
ghost use Rattle.rules.specs.Calls.{list_answer, reconcile_tests};
ghost use Rattle.rules.specs.Reconciling.{Reconciles};

use gap::Sizes;
use rules::{Answer, Refusal, Sketch};

// The answer, and how many keys stand in each buffer.
// Stays an answer beside counts: "On refusal reconciling returns counts 0 and 0", so there are counts in both cases.
#[derive(Clone, Copy)]
pub struct Reconciled {
    pub answer: Answer,
    pub theirs: usize,
    pub ours: usize,
}

impl Reconciled {
    // A refusal counts no keys.
    pub fn refused(why: Refusal) -> Reconciled
        ensures { result ≡ record { answer = Err why; theirs = 0; ours = 0 } }
    {
        Reconciled {
            answer: Err(why),
            theirs: 0,
            ours: 0,
        }
    }
}

// The refusals that come before a difference is looked for, in their order. Whether the sketch is well-formed and the
// answer of the list are handed in.
fn tests(s: Sketch, formed: bool, home: &[u32], list: Answer, theirs: usize, ours: usize) -> Answer
    requires { (formed ≡ well_formed s) × (list ≡ list_answer home.now) }
    ensures { result ≡ reconcile_tests s home.now theirs ours }
{
    if !formed {
        return Err(Refusal::MalformedSketch);
    }
    list?;
    let m = plan::samples(s.plan);
    if theirs < m {
        return Err(Refusal::ShortBuffer(0));
    }
    if ours < m {
        return Err(Refusal::ShortBuffer(1));
    }
    let sizes = Sizes {
        sketch: s.size as usize,
        home: home.len(),
    };
    if sizes.too_large(m) {
        return Err(Refusal::LargeGap);
    }
    Ok(())
}

// What each side lacks: the keys that are new at home in the first entries of theirs, those that the dome lacks in
// those of ours. Both lists are found in arrays of this call and copied once, on success: a refusal leaves both
// buffers as they were. The tests of the sketch and of the list have been made by the caller.
pub fn reconcile_told(
    s: Sketch,
    formed: bool,
    home: &[u32],
    list: Answer,
    theirs: &mut [u32],
    ours: &mut [u32],
) -> Reconciled
    requires { (formed ≡ well_formed s) × (list ≡ list_answer home.now) }
    ensures { Reconciles s home.now theirs.old ours.old (record { answer = result.answer; theirs_count = result.theirs; ours_count = result.ours; theirs = theirs.new; ours = ours.new }) }
{
    if let Err(why) = tests(s, formed, home, list, theirs.len(), ours.len()) {
        return Reconciled::refused(why);
    }
    let m = plan::samples(s.plan);
    let v = s.values;
    let mut new = [0u32; rules::MOST_SAMPLES];
    let mut held = [0u32; rules::MOST_SAMPLES];
    let Some(counts) = search::search(m, s.size, &v, home, &mut new, &mut held) else {
        return Reconciled::refused(Refusal::NoDifference);
    };
    theirs[..counts.theirs].copy_from_slice(&new[..counts.theirs]);
    ours[..counts.ours].copy_from_slice(&held[..counts.ours]);
    Reconciled {
        answer: Ok(()),
        theirs: counts.theirs,
        ours: counts.ours,
    }
}

// The same of a sketch and a list of which nothing is known.
pub fn reconcile(s: Sketch, home: &[u32], theirs: &mut [u32], ours: &mut [u32]) -> Reconciled
    ensures { Reconciles s home.now theirs.old ours.old (record { answer = result.answer; theirs_count = result.theirs; ours_count = result.ours; theirs = theirs.new; ours = ours.new }) }
{
    let formed = plan::well_formed(s);
    reconcile_told(s, formed, home, list::answer(home), theirs, ours)
}
