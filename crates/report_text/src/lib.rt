// The lines that the night report writes, each behind what was written before it.
#![tactic(auto)]

ghost use Rattle.std.specs.Prelude.{◌≡◌, ◌+◌, ◌*◌, ◌≤◌, ◌++◌, length};
ghost use Rattle.rules.specs.Report.{decimal, keys_text, list_text, counts_text, found_text, bad_line_text, refused_text};
ghost use Rattle.rules.specs.Numbers.{most_samples};
ghost use Rattle.rules.specs.Refusals.{number_of, place_of};
ghost use Rattle.report_text.specs.Puts.{Puts, Room};

use arrayvec::ArrayVec;
use itoa::Buffer;
use rules::Answer;

// Room for the longest answer: 83 bytes, and 11 for each of at most 64 keys.
pub const TEXT_ROOM: usize = 1024;

// What is written: bytes without a heap, as many as there is room for.
pub type Lines = ArrayVec<u8, TEXT_ROOM>;

// A text, behind what stands in a vector that has room for it.
pub fn put_text<const N: usize>(lines: &mut ArrayVec<u8, N>, text: &[u8])
    requires { length lines.old.items + length text.now ≤ N }
    ensures { Puts lines.old.items text.now (length text.now) lines.new.items }
{
    for &byte in text {
        lines.push(byte);
    }
}

// A number in decimal. It has at most ten digits.
#[tactic(auto, using(crate::proofs::Decimals::same, crate::proofs::Decimals::short))]
fn put_number(lines: &mut Lines, n: u32)
    requires { Room lines.old.items 10 }
    ensures { Puts lines.old.items (decimal n) 10 lines.new.items }
{
    let mut buffer = Buffer::new();
    put_text(lines, buffer.format(n).as_bytes());
}

// Each key after one space.
fn put_keys(lines: &mut Lines, keys: &[u32])
    requires { Room lines.old.items (11 * length keys.now) }
    ensures { Puts lines.old.items (keys_text keys.now) (11 * length keys.now) lines.new.items }
{
    for &key in keys {
        put_text(lines, b" ");
        put_number(lines, key);
    }
}

// "each count and its keys, each key after one space; a count of 0 ends at the colon."
#[tactic(auto, unfolding(rules::specs::Report::list_text))]
fn put_list(lines: &mut Lines, name: &[u8], keys: &[u32])
    requires { (length keys.now ≤ most_samples) × Room lines.old.items (length name.now + 12 + 11 * length keys.now) }
    ensures { Puts lines.old.items (list_text name.now keys.now) (length name.now + 12 + 11 * length keys.now) lines.new.items }
{
    put_text(lines, name);
    put_number(lines, keys.len() as u32);
    put_text(lines, b":");
    put_keys(lines, keys);
    put_text(lines, b"\n");
}

// "Line one: plan code, sketch size, home count."
#[tactic(auto, unfolding(rules::specs::Report::counts_text))]
fn put_counts(lines: &mut Lines, plan: u32, size: u32, own: u32)
    requires { Room lines.old.items 47 }
    ensures { Puts lines.old.items (counts_text plan size own) 47 lines.new.items }
{
    put_text(lines, b"plan ");
    put_number(lines, plan);
    put_text(lines, b" peer ");
    put_number(lines, size);
    put_text(lines, b" own ");
    put_number(lines, own);
    put_text(lines, b"\n");
}

// The three lines of a difference.
#[tactic(auto, unfolding(rules::specs::Report::found_text))]
pub fn found(plan: u32, size: u32, own: u32, theirs: &[u32], ours: &[u32]) -> Lines
    requires { length theirs.now + length ours.now ≤ most_samples }
    ensures { result.items ≡ found_text plan size own theirs.now ours.now }
{
    let mut lines = Lines::new();
    put_counts(&mut lines, plan, size, own);
    put_list(&mut lines, b"theirs ", theirs);
    put_list(&mut lines, b"ours ", ours);
    lines
}

// "The first line not of this form writes `bad line` and its number"
#[tactic(auto, unfolding(rules::specs::Report::bad_line_text))]
pub fn bad_line(line: u32) -> Lines
    ensures { result.items ≡ bad_line_text line }
{
    let mut lines = Lines::new();
    put_text(&mut lines, b"bad line ");
    put_number(&mut lines, line);
    put_text(&mut lines, b"\n");
    lines
}

// "A refusal writes one line, `refused 13 at 0`."
#[tactic(auto, unfolding(rules::specs::Report::refused_text))]
pub fn refused(answer: Answer) -> Lines
    ensures { result.items ≡ refused_text (number_of answer) (place_of answer) }
{
    let number = refusal::number(answer);
    let place = refusal::place(answer);
    let mut lines = Lines::new();
    put_text(&mut lines, b"refused ");
    put_number(&mut lines, number);
    put_text(&mut lines, b" at ");
    put_number(&mut lines, place);
    put_text(&mut lines, b"\n");
    lines
}
