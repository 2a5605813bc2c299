// One line of the text.
ghost use Rattle.std.specs.Prelude.{◌≡◌, ℕ, List, cond};
ghost use Rattle.std.specs.Str.{is_utf8};
ghost use Rattle.plantext.specs.Lines.{first_of, rate_of, set_of, single_of, block_of, line_of, IsTextOf};

#[derive(Clone, Copy, Debug, PartialEq, Eq)]
pub(crate) enum Line {
    Rate(u8),
    Dash,
    Block { set: u8, first: u16, rate: u8 },
}

// The first index that a word of digits alone writes. `parse` would take a sign too. `text::words::decimal` takes none, but reads 64 bits and
// would be narrowed here: no plainer.
fn first(word: &str) -> Option<u16>
    ensures { result ≡ first_of word.now }
{
    if word.starts_with('+') {
        return None;
    }
    word.parse().ok()
}

fn rate(word: &str) -> Option<u8>
    ensures { result ≡ rate_of word.now }
{
    u8::try_from(first(word)?).ok()
}

fn set(word: &str) -> Option<u8>
    ensures { result ≡ set_of word.now }
{
    match word {
        "A" => Some(0),
        "B" => Some(1),
        "C" => Some(2),
        _ => None,
    }
}

// A line of one word.
fn single(word: &str) -> Option<Line>
    ensures { result ≡ single_of word.now }
{
    if word == "-" {
        return Some(Line::Dash);
    }
    rate(word).map(Line::Rate)
}

// A line of a set's letter and two numbers.
fn block(letter: &str, numbers: &str) -> Option<Line>
    ensures { result ≡ block_of letter.now numbers.now }
{
    let (middle, last) = numbers.split_once(' ')?;
    Some(Line::Block {
        set: set(letter)?,
        first: first(middle)?,
        rate: rate(last)?,
    })
}

// What the words of a line say.
fn words(text: &str) -> Option<Line>
    ensures { result ≡ line_of text.now }
{
    match text.split_once(' ') {
        Some((letter, numbers)) => block(letter, numbers),
        None => single(text),
    }
}

impl Line {
    // What a line says, with its end, which the last one may lack; none where it cannot be read.
    pub(crate) fn read(line: &[u8]) -> Option<Line>
        ensures { (text : List ℕ) → IsTextOf line.now text → result ≡ cond (is_utf8 line.now) (line_of text) None }
    {
        match str::from_utf8(line) {
            Ok(text) => words(text.strip_suffix('\n').unwrap_or(text)),
            Err(_) => None,
        }
    }
}
