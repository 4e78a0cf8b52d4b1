// Lines of telegrams.
ghost use Rattle.std.specs.Prelude.{◌≡◌, ◌≤◌, length};
ghost use Rattle.input.specs.Lines.{ReadAs, blank, content_size, dash, skips};

use crate::hex::{convert, is_hexadecimal};

// What a line holds.
#[derive(Clone, Copy)]
pub enum Line {
    // nothing, or a comment: a kind of line and no `None`
    Skipped,
    // a telegram of so many bytes, which stand at the front of the line now
    Telegram { size: usize },
}

// A line that holds anything else.
#[derive(Clone, Copy)]
pub struct Unreadable;

// The line's length without a carriage return at its end.
pub fn content_len(line: &[u8]) -> usize
    ensures value { result ≡ content_size line.now }
    ensures within { result ≤ length line.now }
{
    match line {
        [front @ .., b'\r'] => front.len(),
        _ => line.len(),
    }
}

// Nothing but spaces.
fn is_blank(content: &[u8]) -> bool
    ensures { result ≡ blank content.now }
{
    content.iter().all(|c| *c == b' ')
}

// Nothing but spaces, or a comment.
pub fn is_skipped(content: &[u8]) -> bool
    ensures { result ≡ skips content.now }
{
    matches!(content, [b'#', ..]) || is_blank(content)
}

// The minus sign alone, which stands for the telegram of no bytes.
fn is_dash(content: &[u8]) -> bool
    ensures { result ≡ dash content.now }
{
    matches!(content, [b'-'])
}

// Reads a line, given without its line feed. The bytes of a telegram take the place of their text;
// any other line is left as it is.
pub fn read_line(line: &mut [u8]) -> Result<Line, Unreadable>
    ensures { ReadAs line.old result line.new }
{
    let end = content_len(line);
    let content = &line[0..end];
    if is_skipped(content) {
        return Ok(Line::Skipped);
    }
    if is_dash(content) {
        return Ok(Line::Telegram { size: 0 });
    }
    if !is_hexadecimal(content) {
        return Err(Unreadable);
    }
    let size = convert(&mut line[0..end]);
    Ok(Line::Telegram { size })
}
