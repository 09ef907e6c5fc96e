//! The forms of a check's report, and of answers.

/// The form of the report on a check's tests.
#[derive(Clone, Copy, Debug, PartialEq, Eq)]
pub enum ReportForm {
    /// Lines of text.
    Text,
    /// TAP, version 14.
    Tap,
    /// JUnit's XML.
    Junit,
    /// An object of JSON for each test.
    Json,
}

impl ReportForm {
    ghost use Rattle.std.specs.Prelude.{◌≡◌, option_map};
    ghost use Rattle.ll_program.specs.Options.{report_form_by, report_form_of};

    // The form that a word names.
    fn of_word(word: &str) -> Option<ReportForm>
        ensures { result ≡ report_form_of word.now }
    {
        match word {
            "tap" => Some(ReportForm::Tap),
            "junit" => Some(ReportForm::Junit),
            "json" => Some(ReportForm::Json),
            _ => None,
        }
    }

    // The form that a word names, if there is one; without a word, text.
    pub(crate) fn by_word(word: Option<&str>) -> Option<ReportForm>
        ensures { result ≡ report_form_by (option_map (λ w. w.now) word.entry) }
    {
        match word {
            Some(word) => ReportForm::of_word(word),
            None => Some(ReportForm::Text),
        }
    }
}

/// The form of an answer of `rights` or `why`.
#[derive(Clone, Copy, Debug, PartialEq, Eq)]
pub enum AnswerForm {
    /// Lines of text.
    Text,
    /// An object of JSON on each line.
    Json,
}

impl AnswerForm {
    ghost use Rattle.std.specs.Prelude.{◌≡◌, option_map};
    ghost use Rattle.ll_program.specs.Options.{answer_form_by};

    // The form that a word names, if there is one; without a word, text.
    pub(crate) fn by_word(word: Option<&str>) -> Option<AnswerForm>
        ensures { result ≡ answer_form_by (option_map (λ w. w.now) word.entry) }
    {
        match word {
            Some("json") => Some(AnswerForm::Json),
            Some(_) => None,
            None => Some(AnswerForm::Text),
        }
    }
}
