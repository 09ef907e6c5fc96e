//! Records a schedule as it is made, for its picture and for the reasons.

ghost use Rattle.std.specs.Prelude.{◌≡◌, ◌≤◌, suc, false, None, IfOk, OnOk, if◌then◌else◌, length, string_bytes};
ghost use Rattle.ll_picture.specs.Pictures.{IsPicture};
ghost use Rattle.ll_picture.specs.Windows.{drawn_of};

use crate::canvas::Written;
use crate::picture::picture_of;
use crate::scene::{BAND, Column, Ending};
use crate::stage::{Asked, Made, Stage, ending_in, row_of};
use crate::window::Window;
use ll_rights::Errno;
use ll_steps::{Report, Witness, World, answer_text};
use ll_wire::{Line, ScheduleLine, shown};
use std::alloc::{AllocError, Global};

/// What is recorded of a schedule: the columns of the lines in the window, and what happens in them.
#[derive(Drop)]
pub struct Film {
    alloc: Global,
    /// The lines that are drawn.
    pub window: Window,
    /// How many lines were made.
    pub lines: u64,
    columns: Vec<Column>,
    stage: Stage,
    asked: Option<Asked>,
    /// Memory ran out. Nothing more is recorded.
    pub is_short: bool,
    ghost counted: { is_short ≡ false → length columns.items ≡ drawn_of window lines },
}

// The text that is shown of a line.
fn line_shown(alloc: Global, line: &Line) -> Result<String, AllocError> {
    match line.bytes() {
        Some(bytes) => shown(alloc, bytes.strip_suffix(b"\n").unwrap_or(bytes)),
        None => String::from_str(alloc, "(too long)"),
    }
}

// The text of a call in its line, after the client and the kind of step.
fn call_in(line: &str) -> &str {
    let (_, behind) = line.split_once(' ').unwrap_or(("", ""));
    let (_, call) = behind.split_once(' ').unwrap_or(("", ""));
    call
}

// The words of an outcome's line.
fn outcome_of(
    alloc: Global,
    world: &World,
    answer: Result<Report, Errno>,
) -> Result<String, AllocError> {
    match answer {
        Ok(report) => {
            let line = answer_text(alloc, world.history().entries(), Ok(report))?;
            String::from_str(alloc, line.as_str().trim_end())
        }
        Err(errno) => {
            let (number, text) = (errno.number(), errno.text());
            format!(in alloc; "refused {number} {text}")
        }
    }
}

// The class of an outcome's writing.
fn class_of(world: &World, answer: Result<Report, Errno>) -> &'static str {
    match answer {
        Ok(Report::NotNow) => "not-now",
        Ok(report) if ending_in(world, report) != Some(Ending::Refused) => "outcome",
        _ => "refusal",
    }
}

// A line that was made, its outcome, and the world after it. Of a line of which nothing is told, what was asked is
// left out.
#[derive(Clone, Copy)]
struct Taken<'a> {
    world: &'a World,
    line: &'a Line,
    asked: Option<Asked>,
    answer: Result<Report, Errno>,
}

// Takes in what came of a line. Adds its column if it is drawn.
fn take_line(
    alloc: Global,
    stage: &mut Stage,
    columns: &mut Vec<Column>,
    is_drawn: bool,
    taken: Taken<'_>,
) -> Written
    ensures { OnOk result (length columns.new.items
        ≡ (if is_drawn then suc (length columns.old.items) else length columns.old.items)) }
{
    let text = if is_drawn || stage.gives_reasons {
        line_shown(alloc, taken.line)?
    } else {
        String::new(alloc)
    };
    if let (Some(asked), Ok(report)) = (taken.asked, taken.answer) {
        let (world, words) = (taken.world, call_in(text.as_str()));
        stage.take(Made {
            world,
            asked,
            report,
            words,
        })?;
    }
    if is_drawn {
        let row = match taken.asked {
            Some(asked) => Some(row_of(asked.client)),
            None => None,
        };
        let class = class_of(taken.world, taken.answer);
        let outcome = outcome_of(alloc, taken.world, taken.answer)?;
        columns.push(Column {
            line: text,
            outcome,
            class,
            row,
        })?;
    }
    Ok(())
}

impl Film {
    /// Returns a film of nothing yet.
    pub fn new(alloc: Global, window: Window, gives_reasons: bool) -> Film
        ensures window { result.window ≡ window }
        ensures none { result.lines ≡ 0 }
    {
        Film {
            alloc,
            window,
            lines: 0,
            columns: Vec::new(alloc),
            stage: Stage::new(alloc, gives_reasons),
            asked: None,
            is_short: false,
        }
    }

    // Prepares for the next line, if anything is told of it. Begins a band if it is the first of one.
    fn prepare(&mut self, world: &World)
        ensures window { self.new.window ≡ self.old.window }
        ensures lines { self.new.lines ≡ self.old.lines }
    {
        if self.is_over() {
            return;
        }
        let is_full = self.columns.len() >= self.stage.bands.len().saturating_mul(BAND);
        self.stage.line = self.lines as usize;
        self.stage.is_drawn = self.window.has(self.lines.saturating_add(1));
        if self.stage.is_drawn && is_full && self.stage.begin_band(world).is_err() {
            self.is_short = true;
        }
    }

    // Reports whether nothing is told of the next line, nor of any line after it.
    fn is_over(&self) -> bool {
        self.is_short || !self.stage.gives_reasons && self.window.is_past(self.lines)
    }

    /// Returns the picture, as SVG. Errors: memory ran out.
    pub fn picture(&self) -> Result<String, AllocError>
        ensures drawn { IfOk result (λ text.
            IsPicture (drawn_of self.now.window self.now.lines) (string_bytes text)) }
        ensures all { self.now.window.from ≤ 1 → self.now.window.to ≡ None → IfOk result (λ text.
            IsPicture self.now.lines (string_bytes text)) }
    {
        if self.is_short {
            return Err(AllocError);
        }
        picture_of(
            self.alloc,
            self.columns.as_slice(),
            self.stage.bands.as_slice(),
        )
    }

    /// Returns one line for each step that couldn't be made, with the reason, and one for each walk under way at the
    /// end. None if memory ran out.
    pub fn reasons(&self) -> Option<&str> {
        if self.is_short {
            None
        } else {
            Some(self.stage.reasons.as_str())
        }
    }
}

impl Witness for Film {
    ghost use Rattle.std.proofs.Common.{◌∙◌, refl};

    ghost seen = { λ film. film.lines };

    // The window stays.
    ghost goes = { λ before after. after.window ≡ before.window };

    fn expect(&mut self, world: &World, asked: &ScheduleLine) {
        self.prepare(world);
        if !self.is_over() {
            self.asked = Some(self.stage.ask(world, asked));
        }
    }

    fn see(&mut self, world: &World, line: &Line, answer: Result<Report, Errno>) {
        self.prepare(world);
        let is_drawn = self.window.has(self.lines + 1);
        let taken = Taken {
            world,
            line,
            asked: self.asked.take(),
            answer,
        };
        let kept = take_line(
            self.alloc,
            &mut self.stage,
            &mut self.columns,
            is_drawn,
            taken,
        );
        self.lines += 1;
        if let Err(_) = kept {
            self.is_short = true;
        }
    }

    fn leave(&mut self, world: &World) {
        if self.stage.gives_reasons && self.stage.tell_walks_left(world).is_err() {
            self.is_short = true;
        }
    }

    ghost goes_nowhere = { λ a. refl };

    ghost goes_on = { λ a b c first next. next ∙ first };
}
