// The two lines that the night report reads.
#![tactic(auto)]

ghost use Rattle.std.specs.Prelude.{◌≡◌, true, false, ◌&&◌, ◌*◌, ◌≤◌, ◌<◌, ltb, length, MatchOption};
ghost use Rattle.rules.specs.Report.{is_digit, digits_limit, keys_limit, keys_from, keys_line, limited, is_hex, hex_value, bytes_line, first_line, second_line};
ghost use Rattle.report_input.specs.Lines.{Reads};

const NEWLINE: u8 = b'\n';

const SPACE: u8 = b' ';

const DIGITS: u32 = 9;

// A line that was read: how many numbers it holds, which stand at the front of the buffer that was lent for them, and
// the bytes behind it. It borrows nothing of that buffer, so that a contract can say what the buffer holds.
#[derive(Clone, Copy)]
pub struct Line<'a> {
    pub count: usize,
    pub rest: &'a [u8],
}

// What a hex digit is worth.
fn hex_value(b: u8) -> Option<u8>
    ensures { MatchOption result (is_hex b ≡ false) (λ v. (is_hex b ≡ true) × (v ≡ hex_value b) × (v < 16)) }
{
    match b {
        b'0'..=b'9' => Some(b - b'0'),
        b'a'..=b'f' => Some(b - b'a' + 10),
        _ => None,
    }
}

// Whether a byte is one more digit of a key that has so many.
fn one_more(b: u8, digits: u32) -> bool
    ensures { result ≡ (is_digit b && ltb digits digits_limit) }
{
    b.is_ascii_digit() && digits < DIGITS
}

// The keys behind a space: the line begins with the digits of the first.
fn keys_from<'a>(line: &'a [u8], keys: &mut [u32]) -> Option<Line<'a>>
    requires { length keys.old ≡ keys_limit }
    ensures { Reads (limited (keys_from 0 0 line.now)) line.now keys.new result }
{
    let mut n = 0;
    let mut digits = 0;
    let mut key = 0;
    for (i, &b) in line.iter().enumerate() {
        if one_more(b, digits) {
            key = key * 10 + u32::from(b - b'0');
            digits += 1;
            continue;
        }
        if digits == 0 || n == keys.len() {
            return None;
        }
        keys[n] = key;
        n += 1;
        if b == NEWLINE {
            return Some(Line {
                count: n,
                rest: &line[i + 1..],
            });
        }
        if b != SPACE {
            return None;
        }
        digits = 0;
        key = 0;
    }
    None
}

// What stands behind `have`: the end of the line, or a space and the keys.
fn keys_line<'a>(line: &'a [u8], keys: &mut [u32]) -> Option<Line<'a>>
    requires { length keys.old ≡ keys_limit }
    ensures { Reads (limited (keys_line line.now)) line.now keys.new result }
{
    match line {
        [NEWLINE, rest @ ..] => Some(Line { count: 0, rest }),
        [SPACE, rest @ ..] => keys_from(rest, keys),
        _ => None,
    }
}

// "Line 1 is `have`, then each key of 1 to 9 digits after one space; there may be none."
pub fn first_line<'a>(input: &'a [u8], keys: &mut [u32]) -> Option<Line<'a>>
    requires { length keys.old ≡ keys_limit }
    ensures { Reads (first_line input.now) input.now keys.new result }
{
    keys_line(input.strip_prefix(b"have")?, keys)
}

// Pairs of hex digits up to the end of the line.
fn bytes_line<'a>(line: &'a [u8], bytes: &mut [u8]) -> Option<Line<'a>>
    requires { length line.now ≤ 2 * length bytes.old }
    ensures { Reads (bytes_line line.now) line.now bytes.new result }
{
    for (n, pair) in line.chunks(2).enumerate() {
        if pair[0] == NEWLINE {
            return Some(Line {
                count: n,
                rest: &line[2 * n + 1..],
            });
        }
        let [high, low] = pair else { return None };
        bytes[n] = hex_value(*high)? * 16 + hex_value(*low)?;
    }
    None
}

// "Line 2 is `message`, one space and an even number of hex digits, perhaps none."
pub fn second_line<'a>(input: &'a [u8], bytes: &mut [u8]) -> Option<Line<'a>>
    requires { length input.now ≤ 2 * length bytes.old }
    ensures { Reads (second_line input.now) input.now bytes.new result }
{
    bytes_line(input.strip_prefix(b"message ")?, bytes)
}
