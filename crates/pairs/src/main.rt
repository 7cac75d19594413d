// Random pairs of sets through `exchange`, whose differences are found a second time by looking for each key of one
// list in the other: the line that is printed says how often the two agree.
#![tactic(auto)]

ghost use Rattle.std.specs.Prelude.{◌≡◌, ◌==◌, not, ◌≤◌, ◌<◌, filter, length};
ghost use Rattle.std.specs.List.{list_any};
ghost use Rattle.arrayvec.specs.ArrayVec.{array_vec_len};

use arrayvec::ArrayVec;
use draws::Draws;
use std::io;

// The most keys of a set, and the room for a difference: that of 64 samples.
const KEYS: usize = rules::MOST_SAMPLES;

type Keys = ArrayVec<u32, KEYS>;

// Key j of a pair is one of the 1,000 numbers from j times this on.
const PART: u32 = 1000;

const PAIRS: u16 = 128;

// Two sets, their keys in order.
#[derive(Drop)]
struct Sets {
    dome: Keys,
    home: Keys,
}

// Two sets, drawn from so many numbers by a seed. At most `most` keys are in one of them alone: about `often` of
// eight, and of these `lean` of four at the dome.
fn draw(seed: u16, count: usize, most: usize, often: u16, lean: u16) -> Sets
    requires { count ≤ 64 }
    ensures { (array_vec_len result.dome ≤ 64) × (array_vec_len result.home ≤ 64) }
{
    let mut draws = Draws { last: seed };
    let mut dome = Keys::new();
    let mut home = Keys::new();
    for j in 0..count {
        let x = draws.draw();
        let key = j as u32 * PART + u32::from(x) % PART;
        let apart = 2 * j - dome.len() - home.len();
        let differs = apart < most && x / 8192 < often;
        let at_dome = x / 1024 % 4 < lean;
        if !differs || at_dome {
            dome.push(key);
        }
        if !differs || !at_dome {
            home.push(key);
        }
    }
    Sets { dome, home }
}

// The numbers of a list that another lacks.
fn lacking(list: &[u32], other: &[u32]) -> Keys
    requires { length list.now ≤ 64 }
    ensures { result.items ≡ filter (λ key. not (list_any (λ y. y == key) other.now)) list.now }
{
    let mut keys = Keys::new();
    for key in list {
        if !other.contains(key) {
            keys.push(*key);
        }
    }
    keys
}

// Whether home is told just what the two lists lack of each other.
// Stays over two buffers with counts: `exchange` fills what it is lent, as the C entries do.
fn agrees(plan: u32, dome: &[u32], home: &[u32]) -> bool
    requires { (length dome.now ≤ 64) × (length home.now ≤ 64) }
{
    let mut theirs = [0; KEYS];
    let mut ours = [0; KEYS];
    let told = exchange::exchange(plan, dome, home, &mut theirs, &mut ours);
    told.answer.is_ok()
        && &theirs[..told.theirs] == lacking(dome, home).as_slice()
        && &ours[..told.ours] == lacking(home, dome).as_slice()
}

// One pair under a plan. The round says how many numbers are drawn from, how often the sets differ, and on which side.
fn pair(plan: u16, round: u16, seed: u16) -> bool
    requires { (plan < 16) × (round < 8) }
{
    let most = plan::samples(plan as u8);
    let count = 8 * (usize::from(round) + 1);
    let drawn = draw(seed, count, most, round + 1, round % 5);
    agrees(u32::from(plan), &drawn.dome, &drawn.home)
}

// Eight rounds under each plan; answers how often there was agreement.
fn pairs() -> u32
    ensures { result ≤ 128 }
{
    let mut agreed = 0;
    for i in 0..PAIRS {
        if pair(i / 8, i % 8, 509 * i) {
            agreed += 1;
        }
    }
    agreed
}

fn main(rt: HostRuntime) -> io::Result<()> {
    let agreed = pairs();
    println!(rt; "{PAIRS} pairs, {agreed} agreements")
}
