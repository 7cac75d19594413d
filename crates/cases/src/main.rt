// The cases of document 01, "Values to hold against it", run through the calls: sketch, write, read, reconcile. A
// line for each says what came back.
#![tactic(auto)]

ghost use Rattle.std.specs.Prelude.{◌≡◌, ◌++◌, ◌+◌, ◌-◌, ◌≤◌, ◌<◌, length, take, replicate, IfOk};
ghost use Rattle.rules.specs.Numbers.{most_samples};
ghost use Rattle.rules.specs.Refusals.{number_of};
ghost use Rattle.rules.specs.Messages.{longest_message};
ghost use Rattle.rules.specs.Calls.{sketch_answer, sketch_result, write_length, write_buffer, read_result};

use rules::{Answer, Sketch};
use std::io;

// Room for a difference of 64 samples.
const KEYS: usize = rules::MOST_SAMPLES;

// Each key after a space; answers how many.
fn print_keys<R: Print>(rt: &R, keys: &[u32]) -> io::Result<usize>
    ensures { IfOk result (λ n. n ≡ length keys.now) }
{
    for key in keys {
        print!(rt; " {key}")?;
    }
    Ok(keys.len())
}

// Each byte after a space, in hex; answers how many.
fn print_bytes<R: Print>(rt: &R, bytes: &[u8]) -> io::Result<usize>
    ensures { IfOk result (λ n. n ≡ length bytes.now) }
{
    for byte in bytes {
        print!(rt; " {byte:02x}")?;
    }
    Ok(bytes.len())
}

// The end of a line that tells a refusal; answers its number.
fn print_refusal<R: Print>(rt: &R, answer: Answer) -> io::Result<u32>
    ensures { IfOk result (λ n. n ≡ number_of answer) }
{
    let number = refusal::number(answer);
    let place = refusal::place(answer);
    println!(rt; " refused {number} at {place}")?;
    Ok(number)
}

// The message of a list's sketch; answers its length.
// Stays over a buffer with a length: `message::write` fills what it is lent, as the C entries do.
fn message_case<R: Print>(rt: &R, label: &[u8], plan: u32, keys: &[u32]) -> io::Result<usize>
    ensures { IfOk result (λ r. r ≡ write_length (sketch_result plan keys.now) longest_message) }
{
    let made = sketch::sketch(plan, keys);
    let mut buffer = [0u8; rules::LONGEST_MESSAGE];
    let written = message::write(made.sketch, &mut buffer);
    let n = written.length;
    rt.write_all(label)?;
    print_bytes(rt, &buffer[..n])?;
    println!(rt; "")?;
    Ok(n)
}

// The values of a list's sketch, or the refusal; answers which.
fn values_case<R: Print>(rt: &R, label: &[u8], plan: u32, keys: &[u32]) -> io::Result<Answer>
    ensures { IfOk result (λ r. r ≡ sketch_answer plan keys.now) }
{
    let made = sketch::sketch(plan, keys);
    let answer = made.answer;
    rt.write_all(label)?;
    if let Err(_) = answer {
        print_refusal(rt, answer)?;
        return Ok(answer);
    }
    let s = made.sketch;
    let m = plan::samples(s.plan);
    let values = s.values;
    print_keys(rt, &values[..m])?;
    println!(rt; "")?;
    Ok(answer)
}

// What the other side reads of a sketch that is written.
// Stays over a buffer with a length, as `message_case` does.
fn sent(s: Sketch) -> Sketch
    ensures { result ≡ read_result (take (write_length s longest_message) (write_buffer s (replicate longest_message 0))) }
{
    let mut buffer = [0u8; rules::LONGEST_MESSAGE];
    let written = message::write(s, &mut buffer);
    let n = written.length;
    let read = message::read(&buffer[..n]);
    read.sketch
}

// What home is told of a sketch that was sent; answers how many keys.
// Stays over two buffers with counts: `reconcile` fills what it is lent, as the C entries do.
fn reconcile_case<R: Print>(rt: &R, label: &[u8], s: Sketch, home: &[u32]) -> io::Result<usize>
    ensures { IfOk result (λ r. r ≤ 128) }
{
    let mut theirs = [0u32; KEYS];
    let mut ours = [0u32; KEYS];
    let told = reconcile::reconcile(sent(s), home, &mut theirs, &mut ours);
    let answer = told.answer;
    rt.write_all(label)?;
    if let Err(_) = answer {
        print_refusal(rt, answer)?;
        return Ok(0);
    }
    let t = told.theirs;
    let o = told.ours;
    print!(rt; " theirs")?;
    print_keys(rt, &theirs[..t])?;
    print!(rt; ", ours")?;
    print_keys(rt, &ours[..o])?;
    println!(rt; "")?;
    Ok(t + o)
}

// A sketch by its plan, its size and its first values: it need not be that of any set.
fn with_values(plan: u8, size: u32, first: &[u32]) -> Sketch
    requires { length first.now ≤ most_samples }
    ensures { (result.plan ≡ plan) × (result.size ≡ size) × (result.values ≡ first.now ++ replicate (most_samples - length first.now) 0) }
{
    let mut values = [0; rules::MOST_SAMPLES];
    values[..first.len()].copy_from_slice(first);
    Sketch { plan, size, values }
}

// Cases 1 to 6; answers how many lines.
fn sketches<R: Print>(rt: &R) -> io::Result<u32>
    ensures { IfOk result (λ n. n ≡ 9) }
{
    message_case(rt, b"case 1: message", 0, &[])?;
    let _ = values_case(rt, b"case 2: values", 0, &[0])?;
    message_case(rt, b"case 2: message", 0, &[0])?;
    let _ = values_case(rt, b"case 3: values", 0, &[1, 2])?;
    message_case(rt, b"case 3: message", 0, &[1, 2])?;
    let _ = values_case(rt, b"case 4: values", 15, &[65472])?;
    let _ = values_case(rt, b"case 4: key 65473", 0, &[65473])?;
    let _ = values_case(rt, b"case 5: values", 0, &[255, 511])?;
    let _ = values_case(rt, b"case 6: values", 3, &[1, 3])?;
    Ok(9)
}

// Cases 7 to 13 and 15; answers how many lines.
fn reconcilings<R: Print>(rt: &R) -> io::Result<u32>
    ensures { IfOk result (λ n. n ≡ 12) }
{
    let _ = values_case(rt, b"case 7: values", 1, &[3])?;
    let of_three = sketch::sketch(1, &[3]);
    reconcile_case(rt, b"case 7:", of_three.sketch, &[1])?;
    reconcile_case(rt, b"case 8:", with_values(0, 1, &[65533]), &[1])?;
    reconcile_case(rt, b"case 9:", with_values(0, 1, &[64]), &[])?;
    reconcile_case(rt, b"case 9:", with_values(0, 1, &[63]), &[])?;
    reconcile_case(rt, b"case 10:", with_values(1, 2, &[4, 9]), &[])?;
    reconcile_case(rt, b"case 11:", with_values(0, 2, &[4]), &[1])?;
    reconcile_case(rt, b"case 12:", with_values(0, 0, &[1]), &[1])?;
    reconcile_case(rt, b"case 12:", with_values(0, 0, &[2]), &[1])?;
    reconcile_case(rt, b"case 13:", with_values(0, 2, &[6]), &[])?;
    reconcile_case(rt, b"case 13:", with_values(0, 2, &[6]), &[1, 2, 3])?;
    reconcile_case(rt, b"case 15:", with_values(1, 0, &[1, 2]), &[])?;
    Ok(12)
}

fn main(rt: HostRuntime) -> io::Result<()> {
    sketches(&rt)?;
    reconcilings(&rt)?;
    Ok(())
}
