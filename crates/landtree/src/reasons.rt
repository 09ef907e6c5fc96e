//! Why commands have ended as they have, for people.

use crate::given::Given;
use crate::hints::Hints;
use ll_check::LinesOf;
use ll_program::{
    CheckOptions, CommandQuestion, Conclusion, ExportOptions, Failure, Late, LearnOptions,
    OldPolicy, Question, Ran, RightsOptions, RunOptions, ScheduleOptions, ServeOptions, Sources,
    WhyOptions,
};
use ll_session::Refusal;

impl Hints {
    // Adds how the opening with this policy was refused, if it was.
    fn of_opening(&mut self, refusal: Option<&Refusal>, given: &Given<'_>) {
        if let Some(refusal) = refusal {
            self.of_refusal(refusal, given);
        }
    }

    /// Adds hints for `run`: lines of the script spell no command, or the policy is the reason.
    pub fn of_run<S: Sources>(
        &mut self,
        options: &RunOptions,
        ended: &Result<Ran, Failure>,
        policy: &Late<'_, S>,
        script: &Late<'_, S>,
    ) {
        let of = if options.comments {
            LinesOf::Commented
        } else {
            LinesOf::Script
        };
        if let Some(text) = script.text()
            && let Ok(Ran { conclusion, .. }) = ended
        {
            match conclusion {
                Conclusion::Stopped(stopped) => {
                    if let Some(line) = stopped.bad_line {
                        self.of_bad_line(of, options.script, text, line);
                    }
                }
                _ => self.of_bad_lines(of, options.script, text),
            }
        }
        let Some(given) = Given::of_tree(&options.tree, policy.text()) else {
            return;
        };
        match ended {
            Err(failure) => self.of_failure(failure, &given),
            Ok(ran) => self.of_opening(ran.refusal.as_ref(), &given),
        }
    }

    /// Adds hints for `schedule`: lines of it spell no step. Of one that a line ended only that line can be meant.
    pub fn of_schedule<S: Sources>(
        &mut self,
        options: &ScheduleOptions,
        ended: &Result<Conclusion, Failure>,
        file: &Late<'_, S>,
    ) {
        let Some(text) = file.text() else {
            return;
        };
        match ended {
            Ok(Conclusion::Stopped(stopped)) => {
                if let Some(line) = stopped.bad_line {
                    self.of_bad_step(options.file, text, line);
                }
            }
            Ok(_) => self.of_bad_lines(LinesOf::Schedule, options.file, text),
            Err(_) => {}
        }
    }

    /// Adds hints for `serve`: the policy is the reason. A call of a connection's profile may be refused like this.
    pub fn of_serving<S: Sources>(
        &mut self,
        options: &ServeOptions,
        ended: &Result<(), Failure>,
        refusal: Option<&Refusal>,
        policy: &Late<'_, S>,
    ) {
        let Some(given) = Given::of_tree(&options.tree, policy.text()) else {
            return;
        };
        match ended {
            Ok(()) => self.of_opening(refusal, &given),
            Err(failure) => self.of_failure(failure, &given),
        }
    }

    /// Adds hints for `rights` of a profile: the policy is the reason.
    pub fn of_rights(
        &mut self,
        options: &RightsOptions,
        profile: &str,
        ended: &Result<(), Failure>,
        text: Option<&[u8]>,
    ) {
        if let Err(failure) = ended
            && let Some(given) = Given::new(Some(options.policy), text, Some(profile))
        {
            self.of_failure(failure, &given);
        }
    }

    /// Adds hints for `rights` of all profiles: the policy has none, or it is the reason.
    pub fn of_all_rights<'x>(
        &mut self,
        options: &RightsOptions<'x>,
        ended: &Result<(), Failure>,
        text: Option<&'x [u8]>,
    ) {
        let Some(given) = Given::new(Some(options.policy), text, None) else {
            return;
        };
        match ended {
            Ok(()) => self.of_no_profile(&given),
            Err(failure) => self.of_all_profiles(failure, &given),
        }
    }

    /// Adds hints for `rights` of two policies: one of them is the reason, the old one first.
    pub fn of_change<'x>(
        &mut self,
        options: &RightsOptions<'x>,
        compared: &OldPolicy<'x>,
        ended: &Result<Conclusion, Failure>,
        old_text: Option<&'x [u8]>,
        text: Option<&'x [u8]>,
    ) {
        let Err(failure) = ended else {
            return;
        };
        let profile = Some(compared.profile);
        let old = Given::new(Some(compared.old), old_text, profile);
        let new = Given::new(Some(options.policy), text, profile);
        // Both are opened, the old one first, and the new one is read after that.
        let given = match failure {
            Failure::Opening(_) if new.is_some() => [new, None],
            _ => [old, new],
        };
        for policy in given {
            if let Some(given) = policy {
                self.of_failure(failure, &given);
            }
        }
    }

    /// Adds hints for `check`: the policy is the reason.
    pub fn of_check(&mut self, options: &CheckOptions, failure: &Failure, text: &[u8]) {
        if let Some(given) = Given::new(options.policy, Some(text), options.profile) {
            self.of_failure(failure, &given);
        }
    }

    /// Adds hints for `learn` from files of checks: the policy is the reason. No history is given with files, and
    /// nobody has a profile in their trees.
    pub fn of_lessons(&mut self, options: &LearnOptions, failure: &Failure, text: &[u8]) {
        if let Some(given) = Given::new(options.policy, Some(text), options.history) {
            self.of_failure(failure, &given);
        }
    }

    /// Adds hints for `export`: the policy is the reason, or a layer that can't be exported.
    pub fn of_export(&mut self, options: &ExportOptions, failure: &Failure, text: Option<&[u8]>) {
        let (policy, profile) = (Some(options.policy), Some(options.profile));
        let Some(given) = Given::new(policy, text, profile) else {
            return;
        };
        self.of_failure(failure, &given);
        if let Failure::CommandLine = failure {
            self.of_flaw(options.form, &given);
        }
    }

    // Adds hints for `why` of a command: a word spells none, or the policy is the reason.
    fn of_command_asked(
        &mut self,
        options: &WhyOptions,
        asked: &CommandQuestion<'_, '_>,
        failure: &Failure,
        text: Option<&[u8]>,
    ) {
        if matches!(failure, Failure::CommandLine) {
            for (index, word) in asked.before.iter().enumerate() {
                self.of_word(word, index.saturating_add(1));
            }
            self.of_word(asked.command, asked.before.len().saturating_add(1));
        }
        if let Some(given) = Given::new(options.policy, text, options.profile) {
            self.of_failure(failure, &given);
        }
    }

    /// Adds hints for `why`: a history lacks the entry or isn't legal, a word spells no command, or the policy is the
    /// reason.
    pub fn of_question<S: Sources>(
        &mut self,
        options: &WhyOptions,
        ended: &Result<Conclusion, Failure>,
        file: &Late<'_, S>,
    ) {
        match (options.question(), ended) {
            (Some(Question::Entry(history, entry)), Err(Failure::CommandLine)) => {
                self.of_missing_entry(history, entry);
            }
            (Some(Question::Entry(history, _)), Ok(Conclusion::Judged(verdict))) => {
                if let Some(text) = file.text() {
                    self.of_verdict(history, text, *verdict);
                }
            }
            (Some(Question::Command(asked)), Err(failure)) => {
                self.of_command_asked(options, &asked, failure, file.text());
            }
            _ => {}
        }
    }
}
