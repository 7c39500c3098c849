ghost use Rattle.std.specs.Prelude.{◌≡◌, ◌++◌, ◌≤◌, ◌^◌, length, OnOk, IfOk};
ghost use Rattle.cx_run.specs.Positions.{IsIn};
ghost use Rattle.cx_run.specs.Report.{region_name, access_line, access_lines, condition_text, alarm_line, accepted_lines, alarmed_lines, summary, title, empty_report, accepted_report, alarmed_report};

use crate::text::{Position, first_position, push_all, push_number, push_place, push_text};
use cx_base::{List, NoMemory};
use cx_form::TypeFile;
use cx_sorts::{Access, Condition};
use std::alloc::Global;

/// Adds the name of the region type at a place of the type file, if there is one.
fn push_region_name(out: &mut List<u8>, types: &TypeFile, k: u32) -> Result<(), NoMemory>
    ensures { OnOk result (out.new ≡ out.old ++ region_name types.now k) }
{
    match types.regions.get(k as usize) {
        Some(region) => push_all(out, region.name.text.as_slice()),
        None => push_text(out, ""),
    }
}

fn push_access(
    out: &mut List<u8>,
    source: &[u8],
    known: &mut Position,
    types: &TypeFile,
    access: Access,
) -> Result<(), NoMemory>
    requires small { length source.now ≤ 2 ^ 24 }
    requires known { IsIn source.now known.old }
    ensures known { IsIn source.now known.new }
    ensures pushed { OnOk result (out.new ≡ out.old ++ access_line source.now types.now access) }
{
    push_text(out, "  access ")?;
    push_place(out, source, known, access.span)?;
    push_text(out, " ")?;
    push_region_name(out, types, access.name)?;
    push_text(out, "\n")
}

fn push_accesses(
    out: &mut List<u8>,
    source: &[u8],
    known: &mut Position,
    types: &TypeFile,
    accesses: &[Access],
) -> Result<(), NoMemory>
    requires small { length source.now ≤ 2 ^ 24 }
    requires known { IsIn source.now known.old }
    ensures known { IsIn source.now known.new }
    ensures pushed { OnOk result (out.new ≡ out.old ++ access_lines source.now types.now accesses.now) }
{
    for a in accesses {
        push_access(out, source, known, types, *a)?;
    }
    Ok(())
}

/// What a condition says where it is not shown.
fn condition_text(number: u8) -> &'static str
    ensures { result.now ≡ condition_text number }
{
    match number {
        2 => "address not shown to lie in a region",
        4 => "access not shown inside its region",
        5 => "region may be one with an open window",
        _ => "result not shown of its type",
    }
}

fn push_alarm(
    out: &mut List<u8>,
    source: &[u8],
    known: &mut Position,
    condition: Condition,
) -> Result<(), NoMemory>
    requires small { length source.now ≤ 2 ^ 24 }
    requires known { IsIn source.now known.old }
    ensures { OnOk result (out.new ≡ out.old ++ alarm_line source.now condition) }
{
    push_text(out, "  alarm C")?;
    push_number(out, u64::from(condition.number))?;
    push_text(out, " ")?;
    push_place(out, source, known, condition.span)?;
    push_text(out, " ")?;
    push_text(out, condition_text(condition.number))?;
    push_text(out, "\n")
}

fn push_summary(
    out: &mut List<u8>,
    functions: u64,
    accepted: u64,
    alarms: u64,
    passed: u64,
) -> Result<(), NoMemory>
    ensures { OnOk result (out.new ≡ out.old ++ summary functions accepted alarms passed) }
{
    push_text(out, "functions ")?;
    push_number(out, functions)?;
    push_text(out, " accepted ")?;
    push_number(out, accepted)?;
    push_text(out, " alarms ")?;
    push_number(out, alarms)?;
    push_text(out, " passed ")?;
    push_number(out, passed)?;
    push_text(out, "\n")
}

fn push_accepted(
    out: &mut List<u8>,
    source: &[u8],
    types: &TypeFile,
    name: &[u8],
    accesses: &[Access],
) -> Result<(), NoMemory>
    requires { length source.now ≤ 2 ^ 24 }
    ensures { OnOk result (out.new ≡ out.old ++ accepted_lines source.now types.now name.now accesses.now) }
{
    push_text(out, "function ")?;
    push_all(out, name)?;
    push_text(out, " accepted\n")?;
    let mut known = first_position(source);
    push_accesses(out, source, &mut known, types, accesses)
}

fn push_alarmed(
    out: &mut List<u8>,
    source: &[u8],
    types: &TypeFile,
    name: &[u8],
    accesses: &[Access],
    condition: Condition,
) -> Result<(), NoMemory>
    requires { length source.now ≤ 2 ^ 24 }
    ensures { OnOk result (out.new ≡ out.old ++ alarmed_lines source.now types.now name.now accesses.now condition) }
{
    push_text(out, "function ")?;
    push_all(out, name)?;
    push_text(out, " alarms 1\n")?;
    let mut known = first_position(source);
    push_accesses(out, source, &mut known, types, accesses)?;
    push_alarm(out, source, &mut known, condition)
}

/// The report where the files have no function.
pub(crate) fn empty_report(alloc: Global) -> Result<List<u8>, NoMemory>
    ensures { IfOk result (λ text. text ≡ empty_report) }
{
    let mut out = List::new(alloc);
    push_text(&mut out, "codex report 1\n")?;
    push_summary(&mut out, 0, 0, 0, 0)?;
    Ok(out)
}

/// The report on a function that raises no alarm.
pub(crate) fn accepted_report(
    alloc: Global,
    source: &[u8],
    types: &TypeFile,
    name: &[u8],
    accesses: &[Access],
) -> Result<List<u8>, NoMemory>
    requires { length source.now ≤ 2 ^ 24 }
    ensures { IfOk result (λ text. text ≡ accepted_report source.now types.now name.now accesses.now) }
{
    let mut out = List::new(alloc);
    push_text(&mut out, "codex report 1\n")?;
    push_accepted(&mut out, source, types, name, accesses)?;
    push_summary(&mut out, 1, 1, 0, 0)?;
    Ok(out)
}

/// The report on a function that raises an alarm.
pub(crate) fn alarmed_report(
    alloc: Global,
    source: &[u8],
    types: &TypeFile,
    name: &[u8],
    accesses: &[Access],
    condition: Condition,
) -> Result<List<u8>, NoMemory>
    requires { length source.now ≤ 2 ^ 24 }
    ensures { IfOk result (λ text. text ≡ alarmed_report source.now types.now name.now accesses.now condition) }
{
    let mut out = List::new(alloc);
    push_text(&mut out, "codex report 1\n")?;
    push_alarmed(&mut out, source, types, name, accesses, condition)?;
    push_summary(&mut out, 1, 0, 1, 0)?;
    Ok(out)
}
