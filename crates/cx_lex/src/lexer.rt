ghost use Rattle.std.specs.Prelude.{◌≤◌, ◌^◌, length, true, IfOk, All};
ghost use Rattle.cx_lex.specs.Machine.{at_mode, run};
ghost use Rattle.cx_lex.specs.Lexed.{Answers, lexed};
ghost use Rattle.cx_lex.specs.Order.{InOrder};
ghost use Rattle.cx_lex.specs.Pieces.{IsCut};
ghost use Rattle.cx_lex.specs.declared.mode.Mode.TheVariants as mode;

use crate::fault::LexFault;
use crate::machine::{add, finish, step};
use crate::mode::{Mode, State};
use cx_base::{List, Token};
use std::alloc::Global;

/// The machine over all bytes.
fn read(alloc: Global, bytes: &[u8]) -> Result<List<Token>, LexFault>
    requires { length bytes.now ≤ 2 ^ 24 }
    ensures { Answers result (run (at_mode (mode.Blank true) 0) 0 bytes.now) }
{
    let mut tokens = List::new(alloc);
    let mut state = State {
        mode: Mode::Blank(true),
        start: 0,
    };
    for (i, b) in bytes.iter().enumerate() {
        let turn = step(state, i as u32, *b, &bytes[i + 1..])?;
        add(&mut tokens, turn.one)?;
        add(&mut tokens, turn.two)?;
        state = turn.next;
    }
    finish(tokens, state, bytes.len() as u32)
}

/// The tokens of a text of at most 2^24 bytes, in linear time.
///
/// At each place that is in no piece before it, the longest piece that begins there is taken
/// (C11 6.4p4): a token, or white space, a comment or a line that begins with `#`, which are passed
/// over. Such a line begins neither inside a comment nor inside a token; it and a comment that
/// begins with `//` end at the newline, also after a backslash. A `#` line is not passed over where
/// a `/*` of it has no `*/` on it, where its last byte other than white space is a backslash, and
/// where its first word is `pragma` (C11 6.10.6), unless the next words are `once`, `STDC`,
/// `message`, `GCC` with one of `diagnostic`, `visibility`, `system_header`, `poison`, `warning`,
/// `error`, `dependency`, `unroll` and `ivdep`, or `clang` with `diagnostic` or `system_header`:
/// other pragmas may change layouts. Words are separated by white space and comments. Since this is a function of the
/// text, a text has at most one reading.
///
/// The tokens stand in the text in order, no two meet, and each byte is in exactly one token or in
/// exactly one piece that is passed over; so there are at most as many tokens as bytes.
///
/// Each fault comes exactly where reading stops at its byte for its cause, and is the first in the
/// text. `NoMemory` may come in place of any answer.
pub fn lex(alloc: Global, bytes: &[u8]) -> Result<List<Token>, LexFault>
    requires { length bytes.now ≤ 2 ^ 24 }
    ensures reading { Answers result (lexed bytes.now) }
    ensures in_order { IfOk result (λ tokens. InOrder 0 (length bytes.now) tokens) }
    ensures count { IfOk result (λ tokens. length tokens ≤ length bytes.now) }
    ensures inside { IfOk result (All (λ t. t.span.past ≤ length bytes.now)) }
    ensures whole { IfOk result (λ tokens. IsCut 0 bytes.now tokens) }
{
    read(alloc, bytes)
}
