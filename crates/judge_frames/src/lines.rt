// The lines of a text (document 01, section 7): the frame at a place, and the end.
ghost use Rattle.std.specs.Prelude.{◌≡◌, ◌+◌, ◌≤◌, length, drop};
ghost use Rattle.lists.specs.Filters.{first_at};
ghost use Rattle.judge_frames.specs.TextLines.{feed};
ghost use Rattle.judge_frames.specs.Places.{is_end};
ghost use Rattle.judge_frames.specs.inner.Places.{frames_from, IsLine};

use crate::reader;
use crate::reader::Frame;

// The place of the first line feed from place at on, or the text's end.
fn line_end(text: &[u8], at: usize) -> usize
    requires { at ≤ length text.now }
    ensures { result ≡ at + first_at feed (drop at text.now) }
{
    let rest = &text[at..];
    let feed = rest.iter().position(|c| *c == limits::LINE_FEED);
    at + feed.unwrap_or(rest.len())
}

// A line's frame, and where the next line starts.
#[derive(Clone, Copy, Debug, PartialEq, Eq)]
pub struct Line {
    pub frame: Option<Frame>,
    pub next: usize,
}

// The line at place at; past the end there is no frame.
pub fn line_at(text: &[u8], at: usize) -> Line
    ensures { IsLine text.now at result.frame result.next }
{
    if text.len() <= at {
        return Line {
            frame: None,
            next: at,
        };
    }
    let e = line_end(text, at);
    Line {
        frame: reader::parse(&text[at..e]),
        next: text.len().min(e + 1),
    }
}

// Whether the frames at place at are the end and nothing more.
pub fn ends_at(text: &[u8], at: usize) -> bool
    ensures { result ≡ is_end (frames_from text.now at) }
{
    let l = line_at(text, at);
    let Some(frame) = l.frame else {
        return false;
    };
    matches!(frame, Frame::End) && text.len() <= l.next
}
