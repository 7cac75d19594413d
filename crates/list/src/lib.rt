// Lists of keys: the test of a list, which has at most 16,384 keys, each legal and above the one before it; and
// whether it holds a key.
#![tactic(auto)]

ghost use Rattle.std.specs.Prelude.{◌≡◌, cond, ◌-◌, ◌≤◌, ltb, leb, length, get_or};
ghost use Rattle.algebra.specs.Decided.{Decides};
ghost use Rattle.algebra.specs.Sets.{◌∈◌, Ascending};
ghost use Rattle.rules.specs.Numbers.{key_limit, list_limit};
ghost use Rattle.rules.specs.Calls.{keys_answer, list_answer};

use rules::{Answer, KEY_LIMIT, LIST_LIMIT, Refusal};

// 1 for a key that is not above the one before it, else 0.
pub fn fall(before: u32, key: u32) -> u32
    ensures { (result ≡ cond (leb key before) 1 0) × (result ≤ 1) }
{
    u32::from(key <= before)
}

// Whether each key is above the one before it. No key ends the loop and none makes it branch, so that several are
// compared at a time.
fn ascends(keys: &[u32]) -> bool
    requires { length keys.now ≤ list_limit }
    ensures { Decides (Ascending keys.now) result }
{
    let mut falls = 0;
    for pair in keys.windows(2) {
        falls += fall(pair[0], pair[1]);
    }
    falls == 0
}

// Whether the last key is legal; without a key there is none that is not.
fn ends_legal(keys: &[u32]) -> bool
    ensures { result ≡ leb (get_or keys.now (length keys.now - 1) 0) key_limit }
{
    keys.last().is_none_or(|&key| key <= KEY_LIMIT)
}

// The first bad key of a list that is not too long.
fn first_bad(keys: &[u32]) -> Answer
    requires { length keys.now ≤ list_limit }
    ensures { result ≡ keys_answer 0 0 keys.now }
{
    let mut least = 0;
    for (i, &key) in keys.iter().enumerate() {
        if KEY_LIMIT < key {
            return Err(Refusal::LargeKey(i as u32));
        }
        if key < least {
            return Err(Refusal::UnorderedKey(i as u32));
        }
        least = key + 1;
    }
    Ok(())
}

fn too_long(keys: &[u32]) -> bool
    ensures { result ≡ ltb list_limit (length keys.now) }
{
    (LIST_LIMIT as usize) < keys.len()
}

// What is wrong with a list, if anything: too long, or its first bad key. Whether the keys ascend is told by the
// caller, who may have seen it on the way. A bad key is looked for only where there is one: nearly every list is
// legal, which is told faster.
pub fn answer_told(keys: &[u32], ascending: bool) -> Answer
    requires { Decides (Ascending keys.now) ascending }
    ensures { result ≡ list_answer keys.now }
{
    if too_long(keys) {
        return Err(Refusal::LongList);
    }
    if ascending && ends_legal(keys) {
        return Ok(());
    }
    first_bad(keys)
}

// The same of keys of which nothing is known. A list that is too long is not looked at.
pub fn answer(keys: &[u32]) -> Answer
    ensures { result ≡ list_answer keys.now }
{
    if too_long(keys) {
        return Err(Refusal::LongList);
    }
    answer_told(keys, ascends(keys))
}

// Whether an ascending list holds a key.
#[tactic(auto, using(crate::proofs::Searching::found))]
pub fn holds(keys: &[u32], key: u32) -> bool
    requires { Ascending keys.now }
    ensures { Decides (key ∈ keys.now) result }
{
    keys.binary_search(&key).is_ok()
}
