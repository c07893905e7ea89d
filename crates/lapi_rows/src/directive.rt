use anyhow::{Context, Result, bail};

/// A line of a row.
#[derive(Clone, Copy)]
pub enum Directive<'a> {
    /// `row NAME`: a row begins.
    Row(&'a str),
    /// `rows NAME`: rows begin that have most in common, one for each `case`.
    Rows(&'a str),
    /// `case STATUS ANSWER | N LINE`: a row whose input has this line N, and whose text is this one line.
    Case(Case<'a>),
    /// `end`: the row ends, or the rows.
    End,
    /// `word TEXT`: one more word after the program's name.
    Word(&'a str),
    /// `status N`: the status that is wanted.
    Status(u8),
    /// `< TEXT`: one more line of the input.
    Given(&'a str),
    /// `times N TEXT`: so many more lines of the input.
    Times(u32, &'a str),
    /// `bytes HEX`: the input goes on with these bytes, behind its lines.
    Bytes(&'a str),
    /// `from NAME`: the input is that of an earlier row.
    From(&'a str),
    /// `line N TEXT`: line N of the input, counted from 1, is this one.
    Line(usize, &'a str),
    /// `before N TEXT`: this line stands before line N.
    Before(usize, &'a str),
    /// `first N`: the input ends after N lines.
    First(usize),
    /// `fronts N A B K`: a line more for each number below N, which cuts entry K of the wire from A to B after so many
    /// bytes; the trace is to tell each as refused there, since the packet ends too early.
    Fronts(usize, &'a str),
    /// `unended`: the last line of the input has no line feed.
    Unended,
    /// `> TEXT`: one more line of the text that is wanted.
    Wanted(&'a str),
    /// `>- TEXT`: the wanted text ends with these bytes, which no line feed follows.
    Cut(&'a str),
    /// `held HEX`: the wanted text goes on with these bytes.
    Held(&'a str),
    /// `read-step N`: a read gives at most N bytes.
    ReadStep(usize),
    /// `write-step N`: a write takes at most N bytes.
    WriteStep(usize),
    /// `failing-read N`: read N fails, counted from 0.
    FailingRead(u64),
    /// `failing-write N`: write N fails, counted from 0.
    FailingWrite(u64),
    /// `room N`: writes fail once N bytes are held.
    Room(usize),
}

/// What is changed in an input, and what is to come of it.
#[derive(Clone, Copy)]
pub struct Case<'a> {
    /// The change as the table has it.
    pub change: &'a str,
    pub number: usize,
    pub line: &'a str,
    pub status: u8,
    pub answer: &'a str,
}

impl<'a> Case<'a> {
    fn parse(text: &'a str) -> Result<Case<'a>> {
        let (wanted, change) = text.split_once(" | ").context("no ` | `")?;
        let (status, answer) = wanted.split_once(' ').context("no status and answer")?;
        let (number, line) = change.split_once(' ').context("no number and line")?;
        Ok(Case {
            change,
            number: number.parse()?,
            line,
            status: status.parse()?,
            answer,
        })
    }
}

impl<'a> Directive<'a> {
    pub fn parse(line: &'a str) -> Result<Directive<'a>> {
        let (word, rest) = line.split_once(' ').unwrap_or((line, ""));
        Ok(match word {
            "row" => Directive::Row(rest),
            "rows" => Directive::Rows(rest),
            "case" => Directive::Case(Case::parse(rest)?),
            "end" => Directive::End,
            "word" => Directive::Word(rest),
            "status" => Directive::Status(rest.parse()?),
            "<" => Directive::Given(rest),
            "bytes" => Directive::Bytes(rest),
            "from" => Directive::From(rest),
            "first" => Directive::First(rest.parse()?),
            "unended" => Directive::Unended,
            ">" => Directive::Wanted(rest),
            ">-" => Directive::Cut(rest),
            "held" => Directive::Held(rest),
            "read-step" => Directive::ReadStep(rest.parse()?),
            "write-step" => Directive::WriteStep(rest.parse()?),
            "failing-read" => Directive::FailingRead(rest.parse()?),
            "failing-write" => Directive::FailingWrite(rest.parse()?),
            "room" => Directive::Room(rest.parse()?),
            _ => return numbered(word, rest),
        })
    }
}

/// The directive of this word with a number and a text after it.
fn numbered<'a>(word: &str, rest: &'a str) -> Result<Directive<'a>> {
    let (number, text) = rest.split_once(' ').context("no number and text")?;
    Ok(match word {
        "times" => Directive::Times(number.parse()?, text),
        "line" => Directive::Line(number.parse()?, text),
        "before" => Directive::Before(number.parse()?, text),
        "fronts" => Directive::Fronts(number.parse()?, text),
        _ => bail!("`{word}` is no directive"),
    })
}
