// Document 01, "The night report": text in, text out. The program `night_report` reads and writes around it.
#![tactic(auto)]

ghost use Rattle.std.specs.Prelude.{◌≤◌, length};
ghost use Rattle.rules.specs.Calls.{read_answer, read_result};
ghost use Rattle.rules.specs.Report.{input_limit, keys_limit, AfterReconcile, AfterRead, second_line, with_second, Says, Reports};
ghost use Rattle.report.specs.Answers.{Told};

use report_text::Lines;
use rules::Sketch;

// "standard input, at most 60,000 bytes"; "It takes at most 8,192 keys"; a byte of the message takes two of the input.
pub const INPUT_LIMIT: usize = 60000;

const KEYS_LIMIT: usize = 8192;

const MESSAGE_LIMIT: usize = INPUT_LIMIT / 2;

pub const TEXT_ROOM: usize = report_text::TEXT_ROOM;

// The text to write: the first bytes; the others are 0.
// Stays a buffer with its length: `Told`, which the report promises, names both and the zeros behind.
#[derive(Clone, Copy)]
pub struct Text {
    pub bytes: [u8; TEXT_ROOM],
    pub length: usize,
}

// The lines for a sketch and the home keys.
fn after_reconcile(s: Sketch, keys: &[u32]) -> Lines
    requires { length keys.now ≤ keys_limit }
    ensures { AfterReconcile s keys.now result.items }
{
    let mut theirs = [0u32; rules::MOST_SAMPLES];
    let mut ours = [0u32; rules::MOST_SAMPLES];
    let left = reconcile::reconcile(s, keys, &mut theirs, &mut ours);
    let answer = left.answer;
    if let Err(_) = answer {
        return report_text::refused(answer);
    }
    let theirs = &theirs[..left.theirs];
    let ours = &ours[..left.ours];
    report_text::found(u32::from(s.plan), s.size, keys.len() as u32, theirs, ours)
}

// "Refusals of the read come before those of reconciling."
fn after_read(keys: &[u32], message: &[u8]) -> Lines
    requires { length keys.now ≤ keys_limit }
    ensures { AfterRead (read_answer message.now) (read_result message.now) keys.now result.items }
{
    let read = message::read(message);
    let answer = read.answer;
    if let Err(_) = answer {
        return report_text::refused(answer);
    }
    after_reconcile(read.sketch, keys)
}

// What stands behind line 1: "nothing follows; a byte after line 2 is `bad line 3`."
fn after_first(keys: &[u32], rest: &[u8]) -> Lines
    requires { (length keys.now ≤ keys_limit) × (length rest.now ≤ input_limit) }
    ensures { Says (with_second keys.now (second_line rest.now)) result.items }
{
    let mut message = [0u8; MESSAGE_LIMIT];
    match report_input::second_line(rest, &mut message) {
        None => report_text::bad_line(2),
        Some(line) if !line.rest.is_empty() => report_text::bad_line(3),
        Some(line) => after_read(keys, &message[..line.count]),
    }
}

#[tactic(auto, unfolding(rules::specs::Report::Reports, rules::specs::Report::form_of))]
fn written(input: &[u8]) -> Lines
    ensures { Reports input.now result.items }
{
    if INPUT_LIMIT < input.len() {
        let mut lines = Lines::new();
        report_text::put_text(&mut lines, b"too long\n");
        return lines;
    }
    let mut keys = [0u32; KEYS_LIMIT];
    match report_input::first_line(input, &mut keys) {
        None => report_text::bad_line(1),
        Some(line) => after_first(&keys[..line.count], line.rest),
    }
}

// What the program writes for what it reads.
pub fn report(input: &[u8]) -> Text
    ensures { Told input.now result.bytes result.length }
{
    let lines = written(input);
    let length = lines.len();
    let mut bytes = [0u8; TEXT_ROOM];
    bytes[..length].copy_from_slice(lines.as_slice());
    Text { bytes, length }
}
