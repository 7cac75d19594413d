// How keys and outcomes look to a caller in C: a key is four bytes, an outcome one number.
#![tactic(auto)]

ghost use Rattle.std.specs.Prelude.{◌≡◌, ◌++◌, suc, ◌+◌, ◌*◌, ◌<◌, ◌≤◌, ◌^◌, length, drop};
ghost use Rattle.rules.specs.Numbers.{list_limit};
ghost use Rattle.rules.specs.Refusals.{number_of, place_of};
ghost use Rattle.rules.specs.Entries.{key_bytes, key_at, byte_of, bytes_of, packed};
ghost use Rattle.encoding.specs.Taken.{Taken};

use rules::Answer;

// How many bytes a key takes.
pub const KEY_BYTES: usize = 4;

// The key whose bytes begin at `at`, the lowest first.
pub fn key_at(bytes: &[u8], at: usize) -> u32
    requires { at + key_bytes ≤ length bytes.now }
    ensures { result ≡ key_at bytes.now at }
{
    u32::from_le_bytes([bytes[at], bytes[at + 1], bytes[at + 2], bytes[at + 3]])
}

// How many keys were taken out of a buffer, and whether each is above the one before it.
#[derive(Clone, Copy)]
pub struct Intake {
    pub count: usize,
    pub ascending: bool,
}

// The keys in a buffer, as many of them as there is room for. They are copied and compared in one pass; no key ends
// it and none makes it branch, so that several are taken at a time. The key before is read again from its bytes:
// carried from turn to turn it would keep the compiler from taking several at a time.
pub fn keys_in(bytes: &[u8], keys: &mut [u32]) -> Intake
    requires { length keys.old ≤ suc list_limit }
    ensures { Taken bytes.now keys.old keys.new result.count result.ascending }
{
    let count = (bytes.len() / KEY_BYTES).min(keys.len());
    if count == 0 {
        return Intake {
            count,
            ascending: true,
        };
    }
    keys[0] = key_at(bytes, 0);
    let mut falls: u32 = 0;
    for i in 1..count {
        let key = key_at(bytes, KEY_BYTES * i);
        keys[i] = key;
        falls += list::fall(key_at(bytes, KEY_BYTES * (i - 1)), key);
    }
    Intake {
        count,
        ascending: falls == 0,
    }
}

// Keys as bytes at the front of a buffer, the rest of which stays.
pub fn put_keys(keys: &[u32], buffer: &mut [u8])
    requires { key_bytes * length keys.now ≤ length buffer.old }
    ensures { buffer.new ≡ bytes_of keys.now ++ drop (key_bytes * length keys.now) buffer.old }
{
    for (i, key) in keys.iter().enumerate() {
        let at = KEY_BYTES * i;
        buffer[at..at + KEY_BYTES].copy_from_slice(&key.to_le_bytes());
    }
}

// What an entry returns: number, place and two counts.
pub fn pack(answer: Answer, first: usize, second: usize) -> u64
    requires { (place_of answer < 2 ^ 24) × (first < 2 ^ 16) × (second < 2 ^ 16) }
    ensures { result ≡ packed (number_of answer) (place_of answer) first second }
{
    let number = refusal::number(answer) as u64;
    let place = refusal::place(answer) as u64;
    number + 0x100 * place + 0x1_0000_0000 * (first as u64) + 0x1_0000_0000_0000 * (second as u64)
}
