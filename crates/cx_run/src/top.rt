ghost use Rattle.std.specs.Prelude.{◌≡◌, ◌≢◌, ◌≤◌, ◌⊎◌, length, IfSome, IsSome, None};
ghost use Rattle.cx_io.specs.Counts.{Rose, RoseBy};
ghost use Rattle.cx_run.specs.Words.{form_of, texts};
ghost use Rattle.cx_run.specs.Outcome.{usage, seen, outcome_of};
ghost use Rattle.cx_run.specs.Answers.{counted};
ghost use Rattle.cx_run.specs.Headline.{Promise, Ends, IsAnswered, Completes};

use crate::ending::{Answer, answer_of};
use crate::files::find_ending;
use crate::status::Status;
use cx_base::NoMemory;
use cx_io::{Files, Sink, WriteFailed, put_all};
use std::alloc::Global;

/// Writes the text of an answer, and says how the call ends.
fn write_answer<K: Sink>(out: &mut K, answer: &Answer) -> Status
    requires made { (answer.now.status ≢ Status.NoMemory) × (answer.now.status ≢ Status.WriteFailed) }
    ensures ends { Ends result (seen answer.now) (K.written out.old) (K.written out.new) }
    ensures status { (result ≡ answer.now.status) ⊎ (result ≡ Status.WriteFailed) }
    ensures faults { K.faults out.old ≤ K.faults out.new }
    ensures failed { result ≡ Status.WriteFailed → Rose (K.faults out.old) (K.faults out.new) }
    ensures sure { IfSome (K.room out.old) (λ r. length answer.now.text ≤ r → result ≢ Status.WriteFailed) }
{
    match put_all(out, answer.text.as_slice()) {
        Ok(()) => answer.status,
        Err(WriteFailed) => Status::WriteFailed,
    }
}

/// Does what the words ask for: reads the files, makes the whole text, and then hands it to the
/// sink. The words are `check C T`, with the name of a C file and of a type file.
///
/// Each answer has its cause: `Usage` comes exactly where the words are no form; `ReadFailed` only
/// where a fetch of this call failed; `WriteFailed` only where a put of this call failed; `NoMemory`
/// may come at any time before the first byte is put, and then nothing is written. Every other
/// status and its text are those that the bytes of the files determine.
pub fn run<F: Files, K: Sink>(alloc: Global, words: &[String], files: &mut F, out: &mut K) -> Status
    // Where the files are told, Done says that they are of the form, and the function is safe.
    ensures headline { result ≡ Status.Done → IfSome (F.map files.old) (λ m. Promise m (texts words.now) (K.written out.old) (K.written out.new)) }

    // Every answer but want of memory has its cause, and is what the told files say.
    ensures answer { result ≢ Status.NoMemory → IsAnswered (F.map files.old) (texts words.now) (counted (F.faults files.old) (F.absents files.old) (F.given files.old)) (counted (F.faults files.new) (F.absents files.new) (F.given files.new)) result (K.written out.old) (K.written out.new) }

    // Where no fetch fails and the sink has room, the status and the text are those of the files.
    ensures complete { IfSome (F.map files.old) (λ m. IfSome (K.room out.old) (λ r. length (outcome_of m (texts words.now)).text ≤ r → (Rose (F.faults files.old) (F.faults files.new) → ⊥) → Completes result (outcome_of m (texts words.now)) (K.written out.old) (K.written out.new))) }

    // The words.
    ensures usage { result ≡ Status.Usage → form_of (texts words.now) ≡ None }
    ensures no_form { form_of (texts words.now) ≡ None → Ends result usage (K.written out.old) (K.written out.new) }

    // The counts.
    ensures read_failed { result ≡ Status.ReadFailed → IsSome (form_of (texts words.now)) × Rose (F.faults files.old) (F.faults files.new) }
    ensures write_failed { result ≡ Status.WriteFailed → Rose (K.faults out.old) (K.faults out.new) }
    ensures limit { result ≡ Status.Limit → RoseBy 262145 (F.given files.old) (F.given files.new) }

    // What stands after the call.
    ensures no_memory { result ≡ Status.NoMemory → K.written out.new ≡ K.written out.old }
    ensures same_map { F.map files.new ≡ F.map files.old }
    ensures faults { F.faults files.old ≤ F.faults files.new }
    ensures absents { F.absents files.old ≤ F.absents files.new }
    ensures given { F.given files.old ≤ F.given files.new }
    ensures sink_faults { K.faults out.old ≤ K.faults out.new }
{
    let Ok(ending) = find_ending(alloc, words, files) else {
        return Status::NoMemory;
    };
    match answer_of(alloc, ending) {
        Err(NoMemory) => Status::NoMemory,
        Ok(answer) => write_answer(out, &answer),
    }
}
