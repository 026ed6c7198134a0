// What is left of a text, and the word that it starts with.
ghost use Rattle.std.specs.Prelude.{◌≡◌, ◌-◌, ◌<◌, ◌≤◌, false, length, slice_index};

use crate::words::{Word, is_blank, run_word, split_run};
use refusals::{Fault, Refusal};

// The last bytes of a text that has `whole` of them. It keeps that, so that it tells its own place.
#[derive(Clone, Copy)]
pub(crate) struct Rest<'a> {
    pub bytes: &'a [u8],
    pub whole: usize,
    ghost fits: { length bytes.now ≤ whole },
}

// A word with its place, and the text behind it.
#[derive(Clone, Copy)]
pub(crate) struct Placed<'a> {
    pub word: Word<'a>,
    pub place: usize,
    pub rest: Rest<'a>,
}

impl<'a> Rest<'a> {
    ghost use Rattle.rule_text.specs.Words.{blank};
    ghost use Rattle.rule_text.specs.Lexing.{words_of, ReadsWord};

    // All of a text.
    pub(crate) fn new(text: &'a [u8]) -> Rest<'a>
        ensures bytes { result.bytes.now ≡ text.now }
        ensures whole { result.whole ≡ length text.now }
    {
        Rest {
            bytes: text,
            whole: text.len(),
        }
    }

    // The place where it begins.
    fn place(self) -> usize
        ensures { result ≡ self.entry.whole - length self.entry.bytes.now }
    {
        self.whole - self.bytes.len()
    }

    // The text past its leading blanks. By slice patterns, first byte and rest: the form in which blanks and marks are read.
    fn skip_blanks(self) -> Rest<'a>
        ensures shorter { length result.bytes.now ≤ length self.entry.bytes.now }
        ensures whole { result.whole ≡ self.entry.whole }
        ensures trimmed { 0 < length result.bytes.now → blank (slice_index result.bytes.now 0) ≡ false }
        ensures same { words_of self.entry.whole result.bytes.now ≡ words_of self.entry.whole self.entry.bytes.now }
    {
        let mut rest = self.bytes;
        while let [first, after @ ..] = rest {
            if !is_blank(*first) {
                break;
            }
            rest = after;
        }
        Rest {
            bytes: rest,
            whole: self.whole,
        }
    }

    // A word that starts here, with the bytes behind it.
    fn placed(self, word: Word<'a>, after: &'a [u8]) -> Placed<'a>
        requires { length after.now ≤ self.whole }
        ensures word { result.word ≡ word.entry }
        ensures place { result.place ≡ self.entry.whole - length self.entry.bytes.now }
        ensures after { result.rest.bytes.now ≡ after.now }
        ensures whole { result.rest.whole ≡ self.entry.whole }
    {
        Placed {
            word,
            place: self.place(),
            rest: Rest {
                bytes: after,
                whole: self.whole,
            },
        }
    }

    // The first word. Inlined, so that a reader keeps what is left in registers: else reading takes nearly twice as long.
    #[inline(always)]
    pub(crate) fn next_word(self) -> Result<Placed<'a>, Fault>
        ensures { ReadsWord self.entry.whole self.entry.bytes.now result }
    {
        let text = self.skip_blanks();
        match text.bytes {
            [] => Ok(text.placed(Word::End, text.bytes)),
            [b'(', after @ ..] => Ok(text.placed(Word::Open, after)),
            [b')', after @ ..] => Ok(text.placed(Word::Close, after)),
            [b'|', after @ ..] => Ok(text.placed(Word::Bar, after)),
            [b'*', after @ ..] => Ok(text.placed(Word::Star, after)),
            [b'!', after @ ..] => Ok(text.placed(Word::Bang, after)),
            _ => {
                let (run, after) = split_run(text.bytes);
                if run.is_empty() {
                    return Err(Refusal::StrayByte.at(text.place()));
                }
                let word = run_word(run).ok_or(Refusal::NotAName.at(text.place()))?;
                Ok(text.placed(word, after))
            }
        }
    }
}
