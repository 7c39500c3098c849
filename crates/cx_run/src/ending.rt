ghost use Rattle.std.specs.Prelude.{◌≡◌, IfOk};
ghost use Rattle.cx_run.specs.Outcome.{number_of, kind_of, limit_of, usage, refused, read_failed, over_limit, seen, outcome_by};
ghost use Rattle.cx_run.specs.declared.ending.Stop.TheVariants.{NoMemory as OutOfMemory};

use crate::status::Status;
use crate::text::{push_number, push_text};
use cx_base::{List, NoMemory};
use cx_form::CFile;
use std::alloc::Global;

/// Which of the files of the command is meant.
#[derive(Clone, Copy, Debug, PartialEq, Eq)]
pub enum Input {
    CFile,
    TypeFile,
}

impl Input {
    /// Its number in texts.
    pub fn number(self) -> u8
        ensures { result ≡ number_of self }
    {
        match self {
            Input::CFile => 1,
            Input::TypeFile => 2,
        }
    }

    /// The name of the limit on its size.
    pub fn kind(self) -> &'static str
        ensures { result.now ≡ kind_of self }
    {
        match self {
            Input::CFile => "c-file",
            Input::TypeFile => "type-file",
        }
    }

    /// How many bytes it may have.
    pub fn limit(self) -> u64
        ensures { result ≡ limit_of self }
    {
        match self {
            Input::CFile => 1048576,
            Input::TypeFile => 262144,
        }
    }
}

/// A C file: its bytes and its tree.
#[derive(Drop)]
pub struct Source {
    pub bytes: List<u8>,
    pub file: CFile,
}

/// The status of a report, and its text.
#[derive(Drop)]
pub struct Answer {
    pub status: Status,
    pub text: List<u8>,
}

/// What a call has to say.
#[derive(Drop)]
pub enum Ending {
    /// The words are none of the forms.
    Usage,
    /// There is no such file.
    Absent(Input),
    /// The file has more bytes than its limit.
    TooLarge(Input),
    /// The bytes of the file are not of the form.
    NotBuilt(Input),
    /// A fetch from the file failed.
    ReadFailed(Input),
    /// The function was judged.
    Judged(Answer),
}

/// Why a step has nothing to go on with.
#[derive(Drop)]
pub enum Stop {
    Ended(Ending),
    NoMemory,
}

impl From<NoMemory> for Stop {
    ghost from_gives = { λ _ e. e ≡ OutOfMemory };

    fn from(_e: NoMemory) -> Stop {
        Stop::NoMemory
    }
}

fn usage_text(alloc: Global) -> Result<List<u8>, NoMemory>
    ensures { IfOk result (λ text. text ≡ usage.text) }
{
    let mut out = List::new(alloc);
    push_text(&mut out, "usage: codex check C T\n")?;
    Ok(out)
}

fn refused_text(alloc: Global, file: Input, word: &str) -> Result<List<u8>, NoMemory>
    ensures { IfOk result (λ text. text ≡ (refused (number_of file) word.now).text) }
{
    let mut out = List::new(alloc);
    push_text(&mut out, "refused ")?;
    push_number(&mut out, u64::from(file.number()))?;
    push_text(&mut out, " ")?;
    push_text(&mut out, word)?;
    push_text(&mut out, "\n")?;
    Ok(out)
}

fn read_failed_text(alloc: Global, file: Input) -> Result<List<u8>, NoMemory>
    ensures { IfOk result (λ text. text ≡ (read_failed (number_of file)).text) }
{
    let mut out = List::new(alloc);
    push_text(&mut out, "read failed ")?;
    push_number(&mut out, u64::from(file.number()))?;
    push_text(&mut out, "\n")?;
    Ok(out)
}

fn over_limit_text(alloc: Global, file: Input) -> Result<List<u8>, NoMemory>
    ensures { IfOk result (λ text. text ≡ (over_limit (kind_of file) (limit_of file)).text) }
{
    let mut out = List::new(alloc);
    push_text(&mut out, "limit ")?;
    push_text(&mut out, file.kind())?;
    push_text(&mut out, " ")?;
    push_number(&mut out, file.limit())?;
    push_text(&mut out, "\n")?;
    Ok(out)
}

/// The status and the whole text of an ending.
pub(crate) fn answer_of(alloc: Global, ending: Ending) -> Result<Answer, NoMemory>
    ensures { IfOk result (λ a. seen a ≡ outcome_by ending) }
{
    match ending {
        Ending::Usage => Ok(Answer {
            status: Status::Usage,
            text: usage_text(alloc)?,
        }),
        Ending::Absent(file) => Ok(Answer {
            status: Status::Refused,
            text: refused_text(alloc, file, "Absent")?,
        }),
        Ending::TooLarge(file) => Ok(Answer {
            status: Status::Limit,
            text: over_limit_text(alloc, file)?,
        }),
        Ending::NotBuilt(file) => Ok(Answer {
            status: Status::Refused,
            text: refused_text(alloc, file, "NotBuilt")?,
        }),
        Ending::ReadFailed(file) => Ok(Answer {
            status: Status::ReadFailed,
            text: read_failed_text(alloc, file)?,
        }),
        Ending::Judged(answer) => Ok(answer),
    }
}
