//! The sections of a text.

ghost use Rattle.std.specs.Prelude.{◌≡◌, ◌≤◌, length, take, drop, codes, true};
ghost use Rattle.asm_read.specs.Sections as sections;

/// The marker of the input section.
const INPUT: &[u8] = b"%input";

/// The marker of the trace section.
const TRACE: &[u8] = b"%trace";

// Whether a line ends here.
fn ends_line(text: &[u8]) -> bool
    ensures { result ≡ sections.ends_line text.now }
{
    match text {
        [] => true,
        [byte] => *byte == b'\n' || *byte == b'\r',
        [first, second, ..] => *first == b'\n' || (*first == b'\r' && *second == b'\n'),
    }
}

// Whether the text begins with these bytes, and then its line ends.
fn is_line(line: &[u8], text: &[u8]) -> bool
    ensures { result ≡ sections.is_line line.now text.now }
{
    let Some((wanted, others)) = line.split_first() else {
        return ends_line(text);
    };
    match text.split_first() {
        Some((byte, rest)) => byte == wanted && is_line(others, rest),
        None => false,
    }
}

/// What stands after the first line feed.
pub fn after_line(text: &[u8]) -> &[u8]
    ensures after { result.now ≡ sections.after_line text.now }
    ensures within { length result.now ≤ length text.now }
{
    let mut rest = text;
    'lines: while let Some((byte, further)) = rest.split_first() {
        rest = further;
        if *byte == b'\n' {
            break;
        }
    }
    rest
}

/// How many bytes stand before the first line that is exactly this one.
pub fn front_length(text: &[u8], marker: &[u8]) -> usize
    ensures front { take result text.now ≡ sections.front_of marker.now true text.now }
    ensures rest { drop result text.now ≡ sections.rest_of marker.now true text.now }
    ensures within { result ≤ length text.now }
{
    let mut at_line = true;
    for (place, byte) in text.iter().enumerate() {
        if at_line && is_line(marker, &text[place..]) {
            return place;
        }
        at_line = *byte == b'\n';
    }
    text.len()
}

/// The program of a job, and its input section without the marker.
pub fn split(text: &[u8]) -> (&[u8], &[u8])
    ensures program { result.0.now ≡ sections.program_of text.now }
    ensures input { result.1.now ≡ sections.input_of text.now }
    ensures program_within { length result.0.now ≤ length text.now }
    ensures input_within { length result.1.now ≤ length text.now }
{
    let (program, rest) = text.split_at(front_length(text, INPUT));
    (program, after_line(rest))
}

/// The words of an input section, and the trace section that stands in it, from its marker on.
pub fn split_trace(input: &[u8]) -> (&[u8], &[u8])
    ensures words { result.0.now ≡ sections.front_of (codes "%trace") true input.now }
    ensures trace { result.1.now ≡ sections.rest_of (codes "%trace") true input.now }
    ensures words_within { length result.0.now ≤ length input.now }
    ensures trace_within { length result.1.now ≤ length input.now }
{
    input.split_at(front_length(input, TRACE))
}
