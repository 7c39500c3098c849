ghost use Rattle.std.specs.Prelude.{◌≡◌, ◌≤◌, ◌<◌, ◌^◌, ◌⊎◌, length, IfSome, IfOk, option_map};
ghost use Rattle.cx_run.specs.Outcome.{limit_of, seen, whole, judged, nothing_to_judge, c_file, type_file, report, checked};
ghost use Rattle.cx_run.specs.Words.{form_of, texts};
ghost use Rattle.cx_run.specs.declared.ending.Input.TheVariants.{CFile, TypeFile};
ghost use Rattle.cx_run.specs.Answers.{IsAbout, Gives, GivesAll, Tells, counted, StopHasCause, AllHasCause, IsCaused};

use crate::ending::{Answer, Ending, Input, Source, Stop};
use crate::report::{accepted_report, alarmed_report, empty_report};
use crate::status::Status;
use crate::words::file_names;
use cx_base::{List, NoMemory};
use cx_form::{TypeFile as Types, read_c_file, read_type_file};
use cx_io::{Files, ReadFault, read_whole};
use cx_sorts::{Verdict, check_function};
use std::alloc::Global;

/// The bytes of a file of the command.
fn read_file<F: Files>(
    alloc: Global,
    files: &mut F,
    name: &str,
    file: Input,
) -> Result<List<u8>, Stop>
    ensures same_map { F.map files.new ≡ F.map files.old }
    ensures faults { F.faults files.old ≤ F.faults files.new }
    ensures absents { F.absents files.old ≤ F.absents files.new }
    ensures given { F.given files.old ≤ F.given files.new }
    ensures small { IfOk result (λ bytes. length bytes ≤ limit_of file) }
    ensures told { IfSome (F.map files.old) (λ m. Gives result (whole file (m name.now))) }
    ensures own { IsAbout file result }
    ensures cause { StopHasCause result (counted (F.faults files.old) (F.absents files.old) (F.given files.old)) (counted (F.faults files.new) (F.absents files.new) (F.given files.new)) }
{
    match read_whole(alloc, files, name, file.limit()) {
        Ok(bytes) => Ok(bytes),
        Err(ReadFault::Absent) => Err(Stop::Ended(Ending::Absent(file))),
        Err(ReadFault::ReadFailed) => Err(Stop::Ended(Ending::ReadFailed(file))),
        Err(ReadFault::TooLarge(_)) => Err(Stop::Ended(Ending::TooLarge(file))),
        Err(ReadFault::NoMemory) => Err(Stop::NoMemory),
    }
}

fn c_source<F: Files>(alloc: Global, files: &mut F, name: &str) -> Result<Source, Stop>
    ensures same_map { F.map files.new ≡ F.map files.old }
    ensures faults { F.faults files.old ≤ F.faults files.new }
    ensures absents { F.absents files.old ≤ F.absents files.new }
    ensures given { F.given files.old ≤ F.given files.new }
    ensures small { IfOk result (λ source. length source.bytes ≤ 2 ^ 24) }
    ensures told { IfSome (F.map files.old) (λ m. Gives result (c_file m name.now)) }
    ensures own { IsAbout CFile result }
    ensures cause { StopHasCause result (counted (F.faults files.old) (F.absents files.old) (F.given files.old)) (counted (F.faults files.new) (F.absents files.new) (F.given files.new)) }
{
    let bytes = read_file(alloc, files, name, Input::CFile)?;
    match read_c_file(alloc, bytes.as_slice())? {
        Some(file) => Ok(Source { bytes, file }),
        None => Err(Stop::Ended(Ending::NotBuilt(Input::CFile))),
    }
}

fn types_beside<F: Files>(
    alloc: Global,
    files: &mut F,
    name: &str,
    source: &Source,
) -> Result<Types, Stop>
    ensures same_map { F.map files.new ≡ F.map files.old }
    ensures faults { F.faults files.old ≤ F.faults files.new }
    ensures absents { F.absents files.old ≤ F.absents files.new }
    ensures given { F.given files.old ≤ F.given files.new }
    ensures told { IfSome (F.map files.old) (λ m. Gives result (type_file m name.now source.now)) }
    ensures own { IsAbout TypeFile result }
    ensures cause { StopHasCause result (counted (F.faults files.old) (F.absents files.old) (F.given files.old)) (counted (F.faults files.new) (F.absents files.new) (F.given files.new)) }
{
    let bytes = read_file(alloc, files, name, Input::TypeFile)?;
    match read_type_file(alloc, bytes.as_slice(), &source.file)? {
        Some(types) => Ok(types),
        None => Err(Stop::Ended(Ending::NotBuilt(Input::TypeFile))),
    }
}

/// The report on the verdict of the function of this name.
fn judged(
    alloc: Global,
    source: &[u8],
    types: &Types,
    name: &[u8],
    verdict: &Verdict,
) -> Result<Answer, NoMemory>
    requires { length source.now ≤ 2 ^ 24 }
    ensures { IfOk result (λ a. seen a ≡ judged source.now types.now name.now verdict.now) }
{
    let accesses = verdict.accesses.as_slice();
    match verdict.alarm {
        None => Ok(Answer {
            status: Status::Done,
            text: accepted_report(alloc, source, types, name, accesses)?,
        }),
        Some(condition) => Ok(Answer {
            status: Status::Alarms,
            text: alarmed_report(alloc, source, types, name, accesses, condition)?,
        }),
    }
}

fn nothing_to_judge(alloc: Global) -> Result<Answer, NoMemory>
    ensures { IfOk result (λ a. seen a ≡ nothing_to_judge) }
{
    Ok(Answer {
        status: Status::Done,
        text: empty_report(alloc)?,
    })
}

/// The report on the trees of both files.
fn check_trees(alloc: Global, source: &Source, types: &Types) -> Result<Answer, NoMemory>
    requires small { length source.now.bytes ≤ 2 ^ 24 }
    ensures told { IfOk result (λ a. seen a ≡ report source.now types.now) }
    ensures status { IfOk result (λ a. (a.status ≡ Status.Done) ⊎ (a.status ≡ Status.Alarms)) }
{
    match &source.file.function {
        None => nothing_to_judge(alloc),
        Some(f) => match &types.function {
            None => nothing_to_judge(alloc),
            Some(g) => {
                let verdict = check_function(alloc, &source.file, types, f, g)?;
                judged(
                    alloc,
                    source.bytes.as_slice(),
                    types,
                    f.name.text.as_slice(),
                    &verdict,
                )
            }
        },
    }
}

/// Reads both files and checks the function.
fn check_files<F: Files>(alloc: Global, files: &mut F, c: &str, t: &str) -> Result<Answer, Stop>
    ensures same_map { F.map files.new ≡ F.map files.old }
    ensures faults { F.faults files.old ≤ F.faults files.new }
    ensures absents { F.absents files.old ≤ F.absents files.new }
    ensures given { F.given files.old ≤ F.given files.new }
    ensures told { IfSome (F.map files.old) (λ m. GivesAll result (c_file m c.now) (checked m c.now t.now)) }
    ensures cause { AllHasCause result (counted (F.faults files.old) (F.absents files.old) (F.given files.old)) (counted (F.faults files.new) (F.absents files.new) (F.given files.new)) }
{
    let source = c_source(alloc, files, c)?;
    let types = types_beside(alloc, files, t, &source)?;
    Ok(check_trees(alloc, &source, &types)?)
}

/// What the call has to say for the words.
pub(crate) fn find_ending<F: Files>(
    alloc: Global,
    words: &[String],
    files: &mut F,
) -> Result<Ending, NoMemory>
    ensures same_map { F.map files.new ≡ F.map files.old }
    ensures faults { F.faults files.old ≤ F.faults files.new }
    ensures absents { F.absents files.old ≤ F.absents files.new }
    ensures given { F.given files.old ≤ F.given files.new }
    ensures told { IfSome (F.map files.old) (λ m. IfOk result (λ e. Tells m (texts words.now) e)) }
    ensures cause { IfOk result (λ e. IsCaused (texts words.now) e (counted (F.faults files.old) (F.absents files.old) (F.given files.old)) (counted (F.faults files.new) (F.absents files.new) (F.given files.new))) }
{
    let Some((c, t)) = file_names(words) else {
        return Ok(Ending::Usage);
    };
    match check_files(alloc, files, c, t) {
        Ok(answer) => Ok(Ending::Judged(answer)),
        Err(Stop::Ended(ending)) => Ok(ending),
        Err(Stop::NoMemory) => Err(NoMemory),
    }
}
