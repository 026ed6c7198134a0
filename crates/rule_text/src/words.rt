// Words: the longest runs of letters, digits and hyphens in a text, and its marks.
ghost use Rattle.std.specs.Prelude.{◌≡◌, ◌≤◌, drop, length, take_while};
ghost use Rattle.std.specs.Str.{bytes_eq};
ghost use Rattle.rule_text.specs.Words.{front, blank, in_run, is_name, is_test_name};
ghost use Rattle.rule_text.specs.Lexing.{IsRunWord};

// A name has at most this many bytes.
pub(crate) const MAX_NAME: usize = 16;

// A word of a text, or its end. A name is that part of the text.
#[derive(Clone, Copy)]
pub(crate) enum Word<'a> {
    Name(&'a [u8]),
    Nil,
    Void,
    Open,
    Close,
    Bar,
    Star,
    Bang,
    End,
}

// Whether a byte parts words.
pub(crate) fn is_blank(b: u8) -> bool
    ensures { result ≡ blank b }
{
    matches!(b, b' ' | b'\n')
}

// Whether a byte belongs to runs.
fn in_run(b: u8) -> bool
    ensures { result ≡ in_run b }
{
    matches!(b, b'a'..=b'z' | b'0'..=b'9' | b'-')
}

// How many bytes the text's first run has.
fn run_len(text: &[u8]) -> usize
    ensures within { result ≤ length text.now }
    ensures run { result ≡ length (take_while in_run text.now) }
{
    text.iter().take_while(|b| in_run(**b)).count()
}

// The text's first run, and what stands behind it.
pub(crate) fn split_run(text: &[u8]) -> (&[u8], &[u8])
    ensures run { result.0.now ≡ front text.now }
    ensures after { result.1.now ≡ drop (length (front text.now)) text.now }
    ensures within { length result.0.now ≤ length text.now }
{
    text.split_at(run_len(text))
}

// Whether a run is a name.
fn is_name(run: &[u8]) -> bool
    ensures { result ≡ is_name run.now }
{
    matches!(run, [b'a'..=b'z', ..] if run.len() <= MAX_NAME)
}

// Whether a run is this word.
pub(crate) fn spells(run: &[u8], word: &[u8]) -> bool
    ensures { result ≡ bytes_eq run.now word.now }
{
    run == word
}

// Whether a run is a name that can stand for a test.
pub(crate) fn is_test_name(run: &[u8]) -> bool
    ensures { result ≡ is_test_name run.now }
{
    is_name(run) && !spells(run, b"nil") && !spells(run, b"void")
}

// The word that a run is; none where it is no name.
pub(crate) fn run_word(run: &[u8]) -> Option<Word<'_>>
    ensures { IsRunWord run.now result }
{
    if spells(run, b"nil") {
        Some(Word::Nil)
    } else if spells(run, b"void") {
        Some(Word::Void)
    } else if is_name(run) {
        Some(Word::Name(run))
    } else {
        None
    }
}
