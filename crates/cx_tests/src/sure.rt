ghost use Rattle.std.specs.Prelude.{◌≤◌, length, IfSome};
ghost use Rattle.cx_run.specs.Words.{texts};
ghost use Rattle.cx_run.specs.Outcome.{outcome_of};
ghost use Rattle.cx_run.specs.Headline.{Completes};

use cx_io::{Files, Sink, SureFiles, SureSink};
use cx_run::{Status, run};
use std::alloc::Global;

/// The top call over files and a sink that do not fail: with room for the text, it ends as the bytes
/// of the files say, with the whole text written, or for want of memory with nothing written.
pub fn check_over_sure_files(
    alloc: Global,
    words: &[String],
    files: &mut SureFiles,
    out: &mut SureSink,
) -> Status
    requires { IfSome (⟦<SureFiles as Files>⟧.map files.old) (λ m. IfSome (⟦<SureSink as Sink>⟧.room out.old) (λ r. length (outcome_of m (texts words.now)).text ≤ r)) }
    ensures { IfSome (⟦<SureFiles as Files>⟧.map files.old) (λ m. Completes result (outcome_of m (texts words.now)) (⟦<SureSink as Sink>⟧.written out.old) (⟦<SureSink as Sink>⟧.written out.new)) }
{
    run(alloc, words, files, out)
}
