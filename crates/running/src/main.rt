// The running sketch beside the sketch of the list: keys go in and out one by one, and after each update the two are
// compared. The program prints how many updates there were and how often the two agreed.
#![tactic(auto)]

ghost use Rattle.std.specs.Prelude.{◌≡◌, cond, [], ◌≤◌};
ghost use Rattle.arrayvec.specs.ArrayVec.{array_vec_len};
ghost use Rattle.rules.specs.Calls.{sketch_result, add_result, remove_result};

use arrayvec::ArrayVec;
use draws::Draws;
use residue::Key;
use rules::{Sketch, Sketched};
use std::io;

// Key j of the 64 that go in and out lies at j times this, so that the keys reach from 0 to near the largest.
const SPREAD: u32 = rules::KEY_LIMIT / 63;

const UPDATES: u32 = 400;

// The keys that are in, in order.
fn collect(inside: &[bool; 64]) -> ArrayVec<u32, 64>
    ensures { array_vec_len result ≤ 64 }
{
    let mut keys = ArrayVec::new();
    for (j, is_in) in inside.iter().enumerate() {
        if *is_in {
            keys.push(j as u32 * SPREAD);
        }
    }
    keys
}

// Whether the running sketch is the sketch of the keys that are in.
fn agrees(plan: u32, inside: &[bool; 64], running: Sketched) -> bool {
    running == sketch::sketch(plan, &collect(inside))
}

// A key that is in goes out, another goes in.
fn update(s: Sketch, key: Key, inside: bool) -> Sketched
    ensures { result.sketch ≡ cond inside (remove_result s key.0) (add_result s key.0) }
{
    if inside {
        update::remove_from(s, key)
    } else {
        update::add_to(s, key)
    }
}

// Makes so many updates under a plan, and answers how often the two sketches agreed.
fn run(plan: u32, updates: u32) -> u32
    ensures { result ≤ updates }
{
    let mut inside = [false; 64];
    let mut running = empty(plan);
    let mut agreed = 0;
    let mut draws = Draws { last: 1 };
    for _ in 0..updates {
        let j = usize::from(draws.draw() / 1024);
        let was = inside[j];
        let r = update(running, Key(j as u32 * SPREAD), was);
        inside[j] = !was;
        if agrees(plan, &inside, r) {
            agreed += 1;
        }
        running = r.sketch;
    }
    agreed
}

// The sketch of the empty list.
fn empty(plan: u32) -> Sketch
    ensures { result ≡ sketch_result plan [] }
{
    sketch::sketch(plan, &[]).sketch
}

fn main(rt: HostRuntime) -> io::Result<()> {
    let updates = 2 * UPDATES;
    let agreed = run(255, UPDATES) + run(15, UPDATES);
    println!(rt; "{updates} updates, {agreed} agreements")
}
