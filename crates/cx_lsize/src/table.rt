//! What code looks up of functions.

ghost use Rattle.std.specs.Prelude.{◌≡◌};
ghost use Rattle.cx_cconst.specs.Constants as numbers;
ghost use Rattle.cx_cmean.specs.Program as program;
ghost use Rattle.cx_sname.specs.File.{declared_of};
ghost use Rattle.cx_lsize.specs.Params.{params_tree};

use cx_base::CInt;
use cx_cmean::number_in;
use cx_ctree::{Param, Unit};
use cx_ctype::unsigned_long;
use cx_sname::{Meaning, meaning_of};

/// The parameters of the function of this name; none of another name.
pub fn params_of(unit: &Unit, name: u32) -> Option<&[Param]>
    ensures { params_tree result ≡ (program.function_of (declared_of unit.now) name).params }
{
    match meaning_of(unit, name) {
        Some(Meaning::Function(sig)) => Some(sig.params.as_slice()),
        None | Some(Meaning::Typedef(_)) | Some(Meaning::Constant(_)) | Some(Meaning::Object(_)) =>
            None,
    }
}

/// The integer type of the numbers that the function of this name gives.
pub fn number_given(unit: &Unit, name: u32) -> CInt
    ensures { result ≡ numbers.number_type (program.function_of (declared_of unit.now) name).result }
{
    match meaning_of(unit, name) {
        Some(Meaning::Function(sig)) => number_in(&sig.result),
        None | Some(Meaning::Typedef(_)) | Some(Meaning::Constant(_)) | Some(Meaning::Object(_)) =>
            unsigned_long(),
    }
}
