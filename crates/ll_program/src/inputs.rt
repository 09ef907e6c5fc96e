//! Checks that no input file is overwritten.

ghost use Rattle.std.specs.Prelude.{◌≡◌, option_map};
ghost use Rattle.ll_program.specs.Options.{file_of, names_input};

/// The file of an input, or None for `-`, standard input.
pub(crate) fn file_of<'a>(word: &'a str) -> Option<&'a str>
    ensures { option_map (λ name. name.now) result ≡ file_of word.entry.now }
{
    if word == "-" { None } else { Some(word) }
}

/// Whether the output file, if any, is also the input file, if any.
pub(crate) fn names_input(output: Option<&str>, input: Option<&str>) -> bool
    ensures { result ≡ names_input (option_map (λ t. t.now) output.entry) (option_map (λ t. t.now) input.entry) }
{
    match (output, input) {
        (Some(output), Some(input)) => output == input,
        (None, _) | (_, None) => false,
    }
}
