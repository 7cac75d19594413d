// Dome and home in one call: the dome's list sketched and written, the message read and reconciled with home's list.
// Its contract is demand 3.
#![tactic(auto)]

ghost use Rattle.std.specs.Prelude.{◌≤◌, length};
ghost use Rattle.rules.specs.Numbers.{plan_of, samples};
ghost use Rattle.promises.specs.Demands.{Within, Tells};
ghost use Rattle.exchange.specs.Exchanged.{Exchanges, left};

use reconcile::Reconciled;

pub fn exchange(
    plan: u32,
    dome: &[u32],
    home: &[u32],
    theirs: &mut [u32],
    ours: &mut [u32],
) -> Reconciled
    ensures composed { Exchanges plan dome.now home.now theirs.old ours.old (left result theirs.new ours.new) }
    ensures told { Within (plan_of plan) dome.now home.now → samples (plan_of plan) ≤ length theirs.old → samples (plan_of plan) ≤ length ours.old → Tells dome.now home.now theirs.old ours.old (left result theirs.new ours.new) }
{
    let made = sketch::sketch(plan, dome);
    if let Err(why) = made.answer {
        return Reconciled::refused(why);
    }
    let mut buffer = [0u8; rules::LONGEST_MESSAGE];
    let written = message::write(made.sketch, &mut buffer);
    let read = message::read(&buffer[..written.length]);
    reconcile::reconcile(read.sketch, home, theirs, ours)
}
