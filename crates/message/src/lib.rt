// Document 01, "Message bits": a sketch written as a message, and a message read back.
#![tactic(auto)]

ghost use Rattle.std.specs.Prelude.{◌≡◌, true, length, Ok};
ghost use Rattle.std.specs.Result.{result_and};
ghost use Rattle.rules.specs.Sketches.{well_formed};
ghost use Rattle.rules.specs.Filled.{sketch_from};
ghost use Rattle.rules.specs.Calls.{write_answer, write_length, write_buffer, read_answer, sketch_in, read_result};

use rules::{Answer, Refusal, Sketch, Sketched};

// What a write answers, and the length of the message that it wrote, 0 if it refused.
// Stays a pair: "On refusal .. a write [returns] the length 0", so there is a length in both cases.
#[derive(Clone, Copy)]
pub struct Written {
    pub answer: Answer,
    pub length: usize,
}

// The message of a sketch that is well-formed, by its parts: "Write: .. 5." What was just made needs no test.
pub fn write_formed(plan: u8, size: u32, values: &[u32], buffer: &mut [u8]) -> Written
    requires { well_formed (sketch_from plan size values.now) ≡ true }
    ensures { (result.answer ≡ write_answer (sketch_from plan size values.now) (length buffer.old)) × (result.length ≡ write_length (sketch_from plan size values.now) (length buffer.old)) × (buffer.new ≡ write_buffer (sketch_from plan size values.now) buffer.old) }
{
    let m = plan::samples(plan);
    let n = packing::message_length(m);
    if buffer.len() < n {
        return Written {
            answer: Err(Refusal::ShortBuffer(0)),
            length: 0,
        };
    }
    packing::fill(plan as u32, size, &values[..m], &mut buffer[..n]);
    Written {
        answer: Ok(()),
        length: n,
    }
}

// "Write: 6, 5." A refused write leaves the buffer; else the message fills its first bytes and the rest stays.
pub fn write(s: Sketch, buffer: &mut [u8]) -> Written
    ensures { (result.answer ≡ write_answer s (length buffer.old)) × (result.length ≡ write_length s (length buffer.old)) × (buffer.new ≡ write_buffer s buffer.old) }
{
    if !plan::well_formed(s) {
        return Written {
            answer: Err(Refusal::MalformedSketch),
            length: 0,
        };
    }
    write_formed(s.plan, s.size, &s.values, buffer)
}

// The sketch that stands in a message, or why none does: "7 if empty, 8, 7, 9, the first 10, 11."
fn sketch_in(message: &[u8]) -> Result<Sketch, Refusal>
    ensures { result ≡ result_and (read_answer message.now) (Ok (sketch_in message.now)) }
{
    if message.is_empty() {
        return Err(Refusal::WrongLength);
    }
    let header = unpacking::read_header(message);
    if header.version != packing::VERSION {
        return Err(Refusal::UnknownVersion);
    }
    let plan = header.plan as u8;
    let m = plan::samples(plan);
    if message.len() != packing::message_length(m) {
        return Err(Refusal::WrongLength);
    }
    let size = header.size;
    if rules::LIST_LIMIT < size {
        return Err(Refusal::LargeSize);
    }
    let values = unpacking::read_body(message, m)?;
    Ok(Sketch { plan, size, values })
}

// A read that is refused gives the blank sketch.
pub fn read(message: &[u8]) -> Sketched
    ensures { (result.answer ≡ read_answer message.now) × (result.sketch ≡ read_result message.now) }
{
    match sketch_in(message) {
        Ok(sketch) => Sketched {
            answer: Ok(()),
            sketch,
        },
        Err(refusal) => Sketched {
            answer: Err(refusal),
            sketch: plan::blank(),
        },
    }
}
