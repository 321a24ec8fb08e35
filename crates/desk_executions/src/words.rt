//! What an exchange says in words.

ghost use Rattle.std.specs.Prelude.{◌≡◌, Some};
ghost use Rattle.desk_executions.specs.Words.{beside_text, field_text, fields_text, piece_text, quote_text, reason_text};
ghost use Rattle.desk_executions.specs.Words.{words_of, words_text};

use desk_words::{Printable, shown};
use report_words::{FirstWords, ReportWords};
use std::fmt;

/// Words of an exchange as they are shown: each of at most 200 bytes takes at most four.
pub type WordsShown = Printable<800>;

/// Words, lent. They are shown with `..` behind them where the exchange said more.
#[derive(Clone, Copy)]
pub struct WordsText<'a> {
    pub bytes: &'a [u8],
    pub is_cut: bool,
}

impl<'a> WordsText<'a> {
    /// Those that are kept of a text.
    pub fn new<const N: usize>(words: &'a FirstWords<N>) -> WordsText<'a>
        ensures { words_of result ≡ words.now }
    {
        WordsText {
            bytes: words.as_bytes(),
            is_cut: words.is_cut(),
        }
    }
}

impl<'a> fmt::Display for WordsText<'a> {
    ghost output = { λ words. Some (words_text (words_of words)) };

    fn fmt<W: fmt::Write>(&self, f: &mut fmt::Formatter<W>) -> fmt::Result {
        let text: WordsShown = shown(self.bytes);
        if self.is_cut {
            write!(f, "{text}..")
        } else {
            write!(f, "{text}")
        }
    }
}

/// Words behind their name, where there are some.
#[derive(Clone, Copy)]
struct Piece<'a>(&'static str, WordsText<'a>);

impl<'a> fmt::Display for Piece<'a> {
    ghost output = { λ piece. Some (piece_text piece.0.now (words_of piece.1)) };

    fn fmt<W: fmt::Write>(&self, f: &mut fmt::Formatter<W>) -> fmt::Result {
        let name = self.0;
        let words = self.1;
        if words.bytes.is_empty() {
            return Ok(());
        }
        write!(f, " {name} {words}")
    }
}

/// A field behind its tag, where a message has it.
#[derive(Clone, Copy)]
struct Field<'a>(u32, WordsText<'a>);

impl<'a> fmt::Display for Field<'a> {
    ghost output = { λ field. Some (field_text field.0 (words_of field.1)) };

    fn fmt<W: fmt::Write>(&self, f: &mut fmt::Formatter<W>) -> fmt::Result {
        let tag = self.0;
        let words = self.1;
        if words.bytes.is_empty() {
            return Ok(());
        }
        write!(f, " {tag}={words}")
    }
}

/// Why an order or its message was refused, where that is said.
#[derive(Drop)]
struct Reason<'a>(&'a ReportWords);

impl<'a> fmt::Display for Reason<'a> {
    ghost output = { λ reason. Some (reason_text reason.0.now) };

    fn fmt<W: fmt::Write>(&self, f: &mut fmt::Formatter<W>) -> fmt::Result {
        let words = WordsText::new(&self.0.reason);
        if words.bytes.is_empty() {
            return Ok(());
        }
        let field = Field(self.0.reason_tag(), words);
        write!(f, " reason{field}")
    }
}

/// A free text between quotes, where there is one.
#[derive(Clone, Copy)]
struct Quote<'a>(WordsText<'a>);

impl<'a> fmt::Display for Quote<'a> {
    ghost output = { λ quote. Some (quote_text (words_of quote.0)) };

    fn fmt<W: fmt::Write>(&self, f: &mut fmt::Formatter<W>) -> fmt::Result {
        let words = self.0;
        if words.bytes.is_empty() {
            return Ok(());
        }
        write!(f, " text \"{words}\"")
    }
}

/// What an exchange says beside its note: its id of the order, its time, the reason and a text, each where it says it.
#[derive(Drop)]
pub(crate) struct BesideText<'a>(pub &'a ReportWords);

impl<'a> fmt::Display for BesideText<'a> {
    ghost output = { λ beside. Some (beside_text beside.0.now) };

    fn fmt<W: fmt::Write>(&self, f: &mut fmt::Formatter<W>) -> fmt::Result {
        let order = Piece("order", WordsText::new(&self.0.order));
        let time = Piece("time", WordsText::new(&self.0.time));
        let reason = Reason(self.0);
        let text = Quote(WordsText::new(&self.0.text));
        write!(f, "{order}{time}{reason}{text}")
    }
}

/// What a report that can't be read says of its order: ClOrdID, ExecType, LastQty and LastPx, each where it says it.
#[derive(Drop)]
pub(crate) struct FieldsText<'a>(pub &'a ReportWords);

impl<'a> fmt::Display for FieldsText<'a> {
    ghost output = { λ fields. Some (fields_text fields.0.now) };

    fn fmt<W: fmt::Write>(&self, f: &mut fmt::Formatter<W>) -> fmt::Result {
        let id = Field(11, WordsText::new(&self.0.id));
        let kind = Field(150, WordsText::new(&self.0.exec_type));
        let shares = Field(32, WordsText::new(&self.0.shares));
        let price = Field(31, WordsText::new(&self.0.price));
        write!(f, "{id}{kind}{shares}{price}")
    }
}
