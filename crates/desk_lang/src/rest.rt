//! What is left of a line, from which word after word is taken.
ghost use Rattle.std.specs.Prelude.{◌≡◌, ◌≤◌, ◌∷◌, length};
ghost use Rattle.addr_text.specs.Reading.{parted_at};
ghost use Rattle.desk_lang.specs.declared.rest.Form.TheVariants.{Plain};
ghost use Rattle.desk_lang.specs.Words.{is_blank, rest_at, without_blanks, word_length, plain_word, broken_word, ends_word, quoted_word, word_at, first_word, next_word, at_end, malformed_at, same_form, value_of_word};

use addr_text::parted_at;
use std::marker::Model;

/// The line isn't in the desk language. The place counts its bytes from 1: it is that of the first word that no line has
/// behind the words before it, or behind the line's last byte where words are missing.
#[derive(Clone, Copy, Debug, PartialEq, Eq)]
pub struct Malformed {
    pub place: u32,
}

/// How a word stands in a line.
#[derive(Clone, Copy)]
pub enum Form {
    Plain,
    /// Between quotes.
    Quoted,
    /// A quote without its end.
    Broken,
}

impl Form {
    /// Whether the word stands in this form, which is a whole word's.
    fn is(self, form: Form) -> bool
        ensures { result ≡ same_form self form }
    {
        matches!(
            (self, form),
            (Form::Plain, Form::Plain) | (Form::Quoted, Form::Quoted)
        )
    }
}

/// What is left of a line.
#[derive(Drop)]
pub struct Rest<'a> {
    /// The place of the first byte, counted from 1.
    place: u32,
    text: &'a [u8],
}

impl<'a> Model for Rest<'a> {
    ghost use Rattle.std.specs.Prelude.{◌+◌, ◌≤◌, length};
    ghost use Rattle.desk_lang.specs.Words.{PlainRest};

    ghost Value = { PlainRest };

    ghost view = { λ r. record { place = r.place; text = r.text.now } };

    ghost invariant = { λ r. r.place + length r.text.now ≤ 1025 };
}

/// A word of a line.
#[derive(Drop)]
pub struct Word<'a> {
    place: u32,
    form: Form,
    bytes: &'a [u8],
    behind: Rest<'a>,
}

impl<'a> Model for Word<'a> {
    ghost use Rattle.desk_lang.specs.Words.{PlainWord};

    ghost Value = { PlainWord };

    ghost view = { λ w. record { place = w.place; form = w.form; bytes = w.bytes.now; behind = w.behind } };
}

fn is_blank(b: u8) -> bool
    ensures { result ≡ is_blank b }
{
    b == b' ' || b == b'\t'
}

// How many bytes stand before the first blank.
fn word_length(text: &[u8]) -> usize
    ensures length { result ≡ word_length text.now }
    ensures within { result ≤ length text.now }
{
    for (i, b) in text.iter().enumerate() {
        if is_blank(*b) {
            return i;
        }
    }
    text.len()
}

/// Whether a word ends before this text.
fn ends_word(text: &[u8]) -> bool
    ensures { result ≡ ends_word text.now }
{
    match text {
        [b, ..] => is_blank(*b),
        [] => true,
    }
}

impl<'a> Rest<'a> {
    /// A whole line.
    pub fn new(line: &'a [u8]) -> Rest<'a>
        requires { length line.now ≤ 1024 }
        ensures { result ≡ rest_at 1 line.now }
    {
        Rest {
            place: 1,
            text: line,
        }
    }

    /// The line from its next word on.
    fn without_blanks(&self) -> Rest<'a>
        ensures { result ≡ without_blanks self.now.place self.now.text }
    {
        let mut place = self.place;
        let mut text = self.text;
        while let [b, behind @ ..] = text {
            if !is_blank(*b) {
                break;
            }
            place += 1;
            text = behind;
        }
        Rest { place, text }
    }

    /// The word at the front, which has no blank in it.
    fn plain_word(&self) -> Word<'a>
        ensures { result ≡ plain_word self.now.place self.now.text }
    {
        let len = word_length(self.text);
        let (bytes, behind) = self.text.split_at(len);
        Word {
            place: self.place,
            form: Form::Plain,
            bytes,
            behind: Rest {
                place: self.place + len as u32,
                text: behind,
            },
        }
    }

    /// A quote at the front without its end.
    fn broken_word(&self) -> Word<'a>
        ensures { result ≡ broken_word self.now.place }
    {
        Word {
            place: self.place,
            form: Form::Broken,
            bytes: &[],
            behind: Rest {
                place: self.place,
                text: &[],
            },
        }
    }

    /// The word at the front, behind whose opening quote this stands.
    fn quoted_word(&self, content: &'a [u8]) -> Word<'a>
        requires { self.now.text ≡ 34 ∷ content.now }
        ensures { result ≡ quoted_word self.now.place (parted_at 34 content.now) }
    {
        let Some((bytes, text)) = parted_at(b'"', content) else {
            return self.broken_word();
        };
        if !ends_word(text) {
            return self.broken_word();
        }
        Word {
            place: self.place,
            form: Form::Quoted,
            bytes,
            behind: Rest {
                place: self.place + bytes.len() as u32 + 2,
                text,
            },
        }
    }

    /// The word at the front, where no blank stands.
    fn word_at(&self) -> Option<Word<'a>>
        ensures { result ≡ word_at self.now.place self.now.text }
    {
        match self.text {
            [] => None,
            [b'"', content @ ..] => Some(self.quoted_word(content)),
            _ => Some(self.plain_word()),
        }
    }

    /// The next word, or nothing where blanks alone are left.
    pub fn first_word(&self) -> Option<Word<'a>>
        ensures { result ≡ first_word self.now }
    {
        self.without_blanks().word_at()
    }

    /// The next word, which has to be of this form.
    pub fn next_word(&self, form: Form) -> Result<Word<'a>, Malformed>
        ensures { result ≡ next_word form self.now }
    {
        let Some(word) = self.first_word() else {
            return Err(Malformed {
                place: self.place + self.text.len() as u32,
            });
        };
        if !word.form.is(form) {
            return Err(word.malformed());
        }
        Ok(word)
    }

    /// All that is left, with the blanks before the next word.
    pub fn left(&self) -> &'a [u8]
        ensures { result.now ≡ self.now.text }
    {
        self.text
    }

    /// The fault of a line that goes wrong here.
    pub fn malformed(&self) -> Malformed
        ensures { result ≡ malformed_at self.now.place }
    {
        Malformed { place: self.place }
    }

    /// Tests that the line ends here.
    pub fn end(&self) -> Result<(), Malformed>
        ensures { result ≡ at_end tt self.now }
    {
        match self.first_word() {
            Some(word) => Err(Malformed { place: word.place }),
            None => Ok(()),
        }
    }
}

impl<'a> Word<'a> {
    /// Whether the word isn't quoted.
    pub fn is_plain(&self) -> bool
        ensures { result ≡ same_form self.now.form Plain }
    {
        self.form.is(Form::Plain)
    }

    pub fn bytes(&self) -> &'a [u8]
        ensures { result.now ≡ self.now.bytes }
    {
        self.bytes
    }

    /// What is left behind the word.
    pub fn behind(self) -> Rest<'a>
        ensures { result ≡ self.entry.behind }
    {
        self.behind
    }

    /// The value that the word was read as, and what is left behind the word.
    pub fn value<T>(self, value: Option<T>) -> Result<(T, Rest<'a>), Malformed>
        ensures { result ≡ value_of_word self.entry value }
    {
        match value {
            Some(value) => Ok((value, self.behind)),
            None => Err(Malformed { place: self.place }),
        }
    }

    /// The fault of a line that goes wrong with this word.
    pub fn malformed(&self) -> Malformed
        ensures { result ≡ malformed_at self.now.place }
    {
        Malformed { place: self.place }
    }
}
