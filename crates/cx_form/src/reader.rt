// Whole files.

ghost use Rattle.std.specs.Prelude.{◌≡◌, ◌≤◌, ◌^◌, length, IfOk, IfSome, IfNone};
ghost use Rattle.cx_form.specs.declared.tree.CFile.{CFile as CFileTree};
ghost use Rattle.cx_form.specs.declared.tree.TypeFile.{TypeFile as TypeFileTree};
ghost use Rattle.cx_form.specs.Reading.{Gives, c_file_of, type_file_of};
ghost use Rattle.cx_form.specs.Files.{CFileOf, TypeFileOf};

use crate::c_file::c_file;
use crate::lexer::tokens;
use crate::read::Stop;
use crate::rules::{is_c_form, is_type_form};
use crate::tree::{CFile, TypeFile};
use crate::type_file::type_file;
use cx_base::NoMemory;
use std::alloc::Global;

#[tactic(auto, unfolding(crate::specs::Reading::c_file_of))]
fn checked_c_file(alloc: Global, bytes: &[u8]) -> Result<CFile, Stop>
    requires { length bytes.now ≤ 2 ^ 24 }
    ensures { Gives (λ c. c) result (c_file_of bytes.now) }
{
    let words = tokens(alloc, bytes)?;
    let c = c_file(alloc, words.as_slice())?;
    if is_c_form(&c) {
        Ok(c)
    } else {
        Err(Stop::Unread)
    }
}

#[tactic(auto, unfolding(crate::specs::Reading::type_file_of))]
fn checked_type_file(alloc: Global, bytes: &[u8], c: &CFile) -> Result<TypeFile, Stop>
    requires { length bytes.now ≤ 2 ^ 24 }
    ensures { Gives (λ t. t) result (type_file_of bytes.now c.now) }
{
    let words = tokens(alloc, bytes)?;
    let t = type_file(alloc, words.as_slice())?;
    if is_type_form(c, &t) {
        Ok(t)
    } else {
        Err(Stop::Unread)
    }
}

/// The C file that the text is; None exactly where the text is of no C file of the form that keeps
/// the rules. Spans are offsets of bytes from the first byte of the text.
///
/// `NoMemory` where the allocator refuses.
pub fn read_c_file(alloc: Global, bytes: &[u8]) -> Result<Option<CFile>, NoMemory>
    requires { length bytes.now ≤ 2 ^ 24 }
    ensures value { IfOk result (λ found. found ≡ c_file_of bytes.now) }
    ensures some { IfOk result (λ found. IfSome found (λ c. CFileOf bytes.now c)) }
    ensures none { IfOk result (λ found. IfNone found ((c : CFileTree) → CFileOf bytes.now c → ⊥)) }
{
    match checked_c_file(alloc, bytes) {
        Ok(c) => Ok(Some(c)),
        Err(Stop::Unread) => Ok(None),
        Err(Stop::NoMemory) => Err(NoMemory),
    }
}

/// The type file that the text is beside the C file; None exactly where the text is of no type file
/// of the form that keeps the rules beside this C file. Spans are offsets of bytes from the first
/// byte of the text.
///
/// `NoMemory` where the allocator refuses.
pub fn read_type_file(alloc: Global, bytes: &[u8], c: &CFile) -> Result<Option<TypeFile>, NoMemory>
    requires { length bytes.now ≤ 2 ^ 24 }
    ensures value { IfOk result (λ found. found ≡ type_file_of bytes.now c.now) }
    ensures some { IfOk result (λ found. IfSome found (λ t. TypeFileOf bytes.now c.now t)) }
    ensures none { IfOk result (λ found. IfNone found ((t : TypeFileTree) → TypeFileOf bytes.now c.now t → ⊥)) }
{
    match checked_type_file(alloc, bytes, c) {
        Ok(t) => Ok(Some(t)),
        Err(Stop::Unread) => Ok(None),
        Err(Stop::NoMemory) => Err(NoMemory),
    }
}
