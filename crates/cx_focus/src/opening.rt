//! Opening a region of a state, with what is true of it.

ghost use Rattle.std.specs.Prelude.{IfOk, option_copied};
ghost use Rattle.cx_state.specs.Valid.{IsValid};
ghost use Rattle.cx_head.specs.Staged.{open_of, Gives};
ghost use Rattle.cx_opens.specs.Opened.{OpensTruly, OpensWell};

use cx_cells::Rules;
use cx_head::FocusFault;
use cx_state::Env;
use cx_term::Term;

/// The state in which what the type of a region says of its head, or of the element of the index that is
/// given, is known as well. The symbol `s` has the fact that says which region it is. First the symbol is
/// settled. Then each binder has the value that is known of the cell that tells it, or is a new symbol; the
/// conditions are learnt; each value and pointer that is not known becomes known, and one that is known
/// equals what the type says; and where exactly one branch of the head is not shown to be impossible, it is
/// opened in the same way. What is no `Term` is left out, or is a new symbol.
///
/// What is added is true: where the first state stands of a memory, the symbol is not null and not fresh, and
/// the region has that element, the answer stands of the same memory, for values that agree on the symbols
/// that there were. Where the region's type is shared, this holds of a state without fresh symbols. If the
/// index names symbols of the state, the answer is valid, has the same locals, fresh and staged symbols, and
/// no fact is lost but for a null.
///
/// `AliasStaged` exactly where a staged region is not shown to be another one, with the first such symbol.
/// `Limit` exactly where else a step passes a limit of states, with the one that is passed first.
pub fn open(rules: &Rules, env: &Env, s: u32, element: Option<&Term>) -> Result<Env, FocusFault>
    requires valid { IsValid rules.now.forms env.now }
    ensures exact { Gives result (open_of rules.now.forms env.now s (option_copied element.entry)) }
    ensures sound { IfOk result (λ next. OpensTruly rules.now.forms env.now s (option_copied element.entry) next) }
    ensures well { IfOk result (λ next. OpensWell rules.now.forms env.now (option_copied element.entry) next) }
{
    opened(rules, env, s, element)
}

fn opened(rules: &Rules, env: &Env, s: u32, element: Option<&Term>) -> Result<Env, FocusFault>
    requires valid { IsValid rules.now.forms env.now }
    ensures { Gives result (open_of rules.now.forms env.now s (option_copied element.entry)) }
{
    cx_head::open(rules, env, s, element)
}
