// The running sketch for the benchmark alone: many updates in one call, so that a clock sees them. Bytes in, bytes
// out, as the C entries; `bench_update_c` exports them.
#![tactic(auto)]

ghost use Rattle.std.specs.Prelude.{◌≡◌};
ghost use Rattle.rules.specs.Refusals.{number_of};
ghost use Rattle.rules.specs.Entries.{keys_of};
ghost use Rattle.bench_update.specs.Folds.{adding, removing, update_of, after, first, entry_returns, entry_leaves};

use encoding::KEY_BYTES;
use residue::Key;
use rules::{Answer, Sketch};
use update::Change;

// Each key of the list is added or removed, after a refusal too: a refused one leaves the sketch as it was. The answer
// is the first refusal.
fn change_all(change: Change, s: &mut Sketch, list: &[u8]) -> Answer
    ensures { (number_of result ≡ first (update_of change) s.old (keys_of list.now)) × (s.new ≡ after (update_of change) s.old (keys_of list.now)) }
{
    let mut told = Ok(());
    for i in 0..list.len() / KEY_BYTES {
        let key = Key(encoding::key_at(list, KEY_BYTES * i));
        told = told.and(update::change_in_place(change, s, key));
    }
    told
}

// The same to the sketch in the message. Bytes behind the last whole key are left out.
fn change_message(change: Change, list: &[u8], message: &mut [u8]) -> Answer
    ensures { (number_of result ≡ entry_returns (update_of change) list.now message.old) × (message.new ≡ entry_leaves (update_of change) list.now message.old) }
{
    let read = message::read(message);
    read.answer?;
    let mut s = read.sketch;
    let told = change_all(change, &mut s, list);
    message::write(s, message);
    told
}

// The sketch in the message, with the keys of the list added: the number of the first refusal, or 0.
pub fn vlomdar_bench_add(list: &[u8], message: &mut [u8]) -> u64
    ensures { (result ≡ entry_returns adding list.now message.old) × (message.new ≡ entry_leaves adding list.now message.old) }
{
    u64::from(refusal::number(change_message(Change::Add, list, message)))
}

// The same with the keys removed.
// Stays beside the other: C calls the two by their names.
pub fn vlomdar_bench_remove(list: &[u8], message: &mut [u8]) -> u64
    ensures { (result ≡ entry_returns removing list.now message.old) × (message.new ≡ entry_leaves removing list.now message.old) }
{
    u64::from(refusal::number(change_message(Change::Remove, list, message)))
}
