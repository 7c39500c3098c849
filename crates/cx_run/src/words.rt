ghost use Rattle.std.specs.Prelude.{◌≡◌, option_map};
ghost use Rattle.cx_run.specs.Words.{texts, form_of};

/// The names of the C file and of the type file, where the words are `check C T`.
pub(crate) fn file_names(words: &[String]) -> Option<(&str, &str)>
    ensures { option_map (λ f. (f.0.now, f.1.now)) result ≡ form_of (texts words.now) }
{
    match words {
        [w, c, t] => {
            if w.as_str() == "check" {
                Some((c.as_str(), t.as_str()))
            } else {
                None
            }
        }
        _ => None,
    }
}
