//! The lines of a script.

/// A place in a file.
#[derive(Clone, Copy)]
pub enum Place {
    /// So many bytes from the beginning.
    FromStart(usize),
    /// So many bytes before the end.
    FromEnd(usize),
}

/// What is printed of a file.
#[derive(Clone, Copy)]
pub enum Shown {
    /// Its SHA-256.
    Digest,
    /// Its bytes in hexadecimal digits, 32 a line.
    Bytes,
    /// Whether it is there.
    Presence,
}

/// A file whose lines follow, up to one that is `end`, each with a line feed.
#[derive(Clone, Copy)]
pub enum Opening<'a> {
    /// `file NAME`: one of these lines alone.
    Whole {
        name: &'a str,
    },
    /// `change NEW OLD FIRST LAST`: one like an old file, but with these lines where that has those
    /// from the first to the last, counted from 1.
    Changed {
        new: &'a str,
        old: &'a str,
        first: usize,
        last: usize,
    },
}

/// A file that is made of what a line says.
#[derive(Clone, Copy)]
pub enum Making<'a> {
    /// `more NAME COUNT TEXT`: a line is added so many times at the file's end. `{i}`, once in the
    /// text, stands for the turn, from 0.
    More {
        name: &'a str,
        count: u32,
        text: &'a str,
    },
    /// `splice NEW OLD PLACE COUNT HEX`: a file like the old one, but with so many bytes from a place
    /// on replaced by others. `-N` is the place N bytes before the end, and `''` are no bytes.
    Splice {
        new: &'a str,
        old: &'a str,
        place: Place,
        count: usize,
        hex: &'a str,
    },
    /// `close NEW OLD`: the same, but with the last 32 bytes replaced by the SHA-256 of all before.
    Close {
        new: &'a str,
        old: &'a str,
    },
}

/// What fails outside during a call over files in memory.
#[derive(Clone, Copy)]
pub struct Plan<'a> {
    /// Calls of the files, by their numbers from 0 with commas between, `-` for none.
    pub calls: &'a str,
    /// Puts, likewise.
    pub puts: &'a str,
    /// How many bytes there is room for.
    pub room: usize,
}

/// What a line of a script asks for.
#[derive(Clone, Copy)]
pub enum Line<'a> {
    /// An empty line, or `# text`: is printed as it is.
    Remark,
    /// To read the lines of a file, and write it.
    Open(Opening<'a>),
    /// To write a file.
    Make(Making<'a>),
    /// `$ WORDS`: prints this line, calls gnatcov with the words, and prints its status. `''` is an
    /// empty word. `$ ~ WORDS` leaves out the lines of digests, and of counts of instructions and
    /// of traces.
    Call {
        words: Option<&'a str>,
        are_details_left_out: bool,
    },
    /// `keep NAME`: calls over files in memory have a copy of this file.
    Keep {
        name: &'a str,
    },
    /// `! CALLS PUTS ROOM WORDS`: prints this line, calls gnatcov with the words, of which the first is the
    /// program's name and `-` are none, over the copies in memory, where this fails, and prints its status,
    /// how many reads and writes failed, which files changed, and which of them a file `new` is like.
    Trial {
        plan: Plan<'a>,
        words: &'a str,
    },
    /// `digest NAME`, `bytes NAME` or `absent NAME`: prints this of the file.
    Show {
        what: Shown,
        name: &'a str,
    },
}

/// What the words `''` and others stand for.
pub fn word_of(word: &str) -> &str {
    if word == "''" { "" } else { word }
}

impl<'a> Line<'a> {
    /// What a line asks for, if it is one of a script.
    pub fn of(line: &'a str) -> Option<Line<'a>> {
        if line.is_empty() || line.starts_with('#') {
            return Some(Line::Remark);
        }
        let Some((verb, rest)) = line.split_once(' ') else {
            return bare(line);
        };
        match verb {
            "$" => Some(call(rest)),
            "!" => trial(rest),
            "keep" => Some(Line::Keep { name: rest }),
            "file" => Some(Line::Open(Opening::Whole { name: rest })),
            "change" => change(rest),
            "more" => more(rest),
            "splice" => splice(rest),
            "close" => close(rest),
            "digest" => Some(show(Shown::Digest, rest)),
            "bytes" => Some(show(Shown::Bytes, rest)),
            "absent" => Some(show(Shown::Presence, rest)),
            _ => None,
        }
    }
}

/// A line of one word.
fn bare(line: &str) -> Option<Line<'_>> {
    (line == "$").then_some(Line::Call {
        words: None,
        are_details_left_out: false,
    })
}

fn call(words: &str) -> Line<'_> {
    match words.strip_prefix("~ ") {
        Some(words) => Line::Call {
            words: Some(words),
            are_details_left_out: true,
        },
        None => Line::Call {
            words: Some(words),
            are_details_left_out: false,
        },
    }
}

fn trial(rest: &str) -> Option<Line<'_>> {
    let (calls, rest) = rest.split_once(' ')?;
    let (puts, rest) = rest.split_once(' ')?;
    let (room, words) = rest.split_once(' ')?;
    let room = room.parse::<usize>().ok()?;
    let plan = Plan { calls, puts, room };
    Some(Line::Trial { plan, words })
}

fn change(rest: &str) -> Option<Line<'_>> {
    let (new, rest) = rest.split_once(' ')?;
    let (old, rest) = rest.split_once(' ')?;
    let (first, last) = rest.split_once(' ')?;
    Some(Line::Open(Opening::Changed {
        new,
        old,
        first: first.parse::<usize>().ok()?,
        last: last.parse::<usize>().ok()?,
    }))
}

fn more(rest: &str) -> Option<Line<'_>> {
    let (name, rest) = rest.split_once(' ')?;
    let (count, text) = rest.split_once(' ')?;
    let count = count.parse::<u32>().ok()?;
    Some(Line::Make(Making::More { name, count, text }))
}

fn splice(rest: &str) -> Option<Line<'_>> {
    let (new, rest) = rest.split_once(' ')?;
    let (old, rest) = rest.split_once(' ')?;
    let (place, rest) = rest.split_once(' ')?;
    let (count, hex) = rest.split_once(' ')?;
    Some(Line::Make(Making::Splice {
        new,
        old,
        place: place_of(place)?,
        count: count.parse::<usize>().ok()?,
        hex: word_of(hex),
    }))
}

fn place_of(word: &str) -> Option<Place> {
    match word.strip_prefix('-') {
        Some(number) => number.parse::<usize>().ok().map(Place::FromEnd),
        None => word.parse::<usize>().ok().map(Place::FromStart),
    }
}

fn show(what: Shown, name: &str) -> Line<'_> {
    Line::Show { what, name }
}

fn close(rest: &str) -> Option<Line<'_>> {
    let (new, old) = rest.split_once(' ')?;
    Some(Line::Make(Making::Close { new, old }))
}
