//! The words of the command line.

ghost use Rattle.std.specs.Prelude.{◌≡◌, Option, Some, None, MatchOption};
ghost use Rattle.ajweave.specs.Words.{texts, command_of};

/// `weave IN OUT`: the folder to read, and the one to write.
#[derive(Clone, Copy, Debug)]
pub(crate) struct Weave<'a> {
    pub(crate) input: &'a str,
    pub(crate) output: &'a str,
}

/// The command that the words are, or `None` where they are no command that is built. A word is not
/// empty and does not begin with `-`.
pub(crate) fn command(words: &[String]) -> Option<Weave<'_>>
    ensures read { MatchOption result (command_of (texts words.now) ≡ None) (λ weave. command_of (texts words.now) ≡ Some (record { input = weave.input.now; output = weave.output.now })) }
{
    match words {
        [name, input, output]
            if name.as_str() == "weave" && is_word(input.as_str()) && is_word(output.as_str()) => {
            Some(Weave {
                input: input.as_str(),
                output: output.as_str(),
            })
        }
        _ => None,
    }
}

ghost use Rattle.ajweave.specs.Words.{is_word};

fn is_word(text: &str) -> bool
    ensures { result ≡ is_word text.now }
{
    !text.is_empty() && !text.starts_with('-')
}
