ghost use Rattle.std.specs.Prelude.{◌≡◌, ◌++◌, All, OnOk};
ghost use Rattle.std.specs.List.{position_or_len};
ghost use Rattle.std.specs.Str.{bytes_eq};
ghost use Rattle.cx_cword.specs.Lexemes.{text_of};
ghost use Rattle.cx_citem.specs.Items.{naming};
ghost use Rattle.cx_cread.specs.Reading.{InText, IsNumbered, numbers_of};

use cx_base::{List, Names, NoMemory};
use cx_citem::naming;
use cx_cword::Lexeme;
use std::alloc::Global;

// The number of a word that has one.
fn number_of(bytes: &[u8], names: &Names, word: Lexeme) -> u32
    requires { IsNumbered names.now bytes.now word }
    ensures { result ≡ position_or_len (bytes_eq (text_of bytes.now word.span)) names.now }
{
    let text = &bytes[word.span.first as usize..word.span.past as usize];
    names.number_of(text).unwrap()
}

/// Adds the number of each word by which an item that is passed over names a function.
pub fn name_functions(
    alloc: Global,
    bytes: &[u8],
    names: &Names,
    lexemes: &[Lexeme],
    named: &mut List<u32>,
) -> Result<(), NoMemory>
    requires { All (InText names.now bytes.now) lexemes.now }
    ensures { OnOk result (named.new ≡ named.old ++ numbers_of names.now bytes.now (naming 0 lexemes.now)) }
{
    let words = naming(alloc, lexemes)?;
    for word in words.as_slice() {
        named.push(number_of(bytes, names, *word))?;
    }
    Ok(())
}
