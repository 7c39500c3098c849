ghost use Rattle.std.specs.Prelude.{◌≡◌, IfOk};
ghost use Rattle.cx_sorts.specs.Rules.{verdict_of};
ghost use Rattle.cx_sorts.specs.Safe.{AreOfForm, Safe};

use crate::rules::{access_span, return_alarm, rule, sorts_of};
use crate::verdict::{Condition, Verdict};
use cx_base::{List, NoMemory};
use cx_form::{CFile, Function, FunctionType, TypeFile};
use std::alloc::Global;

/// Applies the rules by sorts to a function of a C file and its type in a type file.
///
/// The verdict is that of the rules whatever the files are. For files of the form it is a promise:
/// where there is no alarm, the function is safe from every memory whose regions hold their types
/// and for all arguments of the declared types. Each access then lies inside a region whose type is
/// the one listed, and at the return all regions hold their types and so does the result.
pub fn check_function(
    alloc: Global,
    c: &CFile,
    types: &TypeFile,
    function: &Function,
    declared: &FunctionType,
) -> Result<Verdict, NoMemory>
    ensures exact { IfOk result (λ v. v ≡ verdict_of c.now types.now function.now declared.now) }
    ensures safe { IfOk result (λ v. AreOfForm c.now types.now function.now declared.now → v.alarm ≡ None → Safe c.now types.now function.now declared.now v.accesses) }
{
    let mut sorts = sorts_of(alloc, types, declared)?;
    let mut accesses = List::new(alloc);
    for statement in function.body.as_slice() {
        match rule(c, types, function, &mut sorts, statement) {
            Ok(access) => accesses.push(access)?,
            Err(number) => {
                let span = access_span(statement);
                return Ok(Verdict {
                    accesses,
                    alarm: Some(Condition { number, span }),
                });
            }
        }
    }
    let alarm = return_alarm(types, function, declared, &sorts);
    Ok(Verdict { accesses, alarm })
}
