//! Lessons: the tests that don't expect a denial.

ghost use Rattle.std.specs.Prelude.{◌≡◌, codes, map, not, slice_get, string_bytes, IfErr, IfOk};
ghost use Rattle.std.specs.List.{filter};
ghost use Rattle.std.specs.Option.{option_map_or};
ghost use Rattle.ll_check.specs.Checks.{tests_of};
ghost use Rattle.ll_check.specs.Lessons.{lesson_note, lessons_of, picked};
ghost use Rattle.ll_check.specs.Report.{heading};
ghost use Rattle.ll_check.specs.Wanted.{wants_denial};

use crate::check_text::{ReadFile, Test};
use crate::reporter::command_of;
use ll_learn::{Notes, Origin};
use ll_program::Failure;
use std::alloc::{AllocError, Global};

/// The lessons of a section: its file's name, its own name, and these of its tests.
#[derive(Drop)]
pub(crate) struct FileLessons<'a> {
    pub name: &'a str,
    pub section: &'a [u8],
    pub tests: Vec<&'a Test>,
}

// Returns the tests that don't expect a denial.
fn picked_of<'a>(alloc: Global, tests: &'a [Test]) -> Result<Vec<&'a Test>, AllocError>
    ensures { IfOk result (λ picked.
        map (λ t. t.now) picked.items ≡ filter (λ test. not (wants_denial test.wanted)) tests.entry.now) }
{
    let mut picked = Vec::new(alloc);
    for test in tests {
        if !test.wanted.is_denial() {
            picked.push(test)?;
        }
    }
    Ok(picked)
}

impl<'a> FileLessons<'a> {
    // Returns the lessons of a file.
    fn of_file(alloc: Global, file: &'a ReadFile<'_>) -> Result<FileLessons<'a>, AllocError>
        ensures { IfOk result (λ lessons. picked lessons ≡ lessons_of (tests_of file.entry.now)) }
    {
        let tests = picked_of(alloc, file.checks.tests.as_slice())?;
        Ok(FileLessons {
            name: file.name,
            section: file.section.as_slice(),
            tests,
        })
    }
}

/// Returns the lessons of all files. Errors: memory ran out.
pub(crate) fn lessons_in<'a>(
    alloc: Global,
    files: &'a [ReadFile<'_>],
) -> Result<Vec<FileLessons<'a>>, Failure>
    ensures lessons { IfOk result (λ lessons.
        map picked lessons.items ≡ map lessons_of (map tests_of files.entry.now)) }
    ensures failure { IfErr result (λ failure. failure ≡ Failure.NoMemory) }
{
    let mut lessons = Vec::new(alloc);
    for file in files {
        let Ok(picked) = FileLessons::of_file(alloc, file) else {
            return Err(Failure::NoMemory);
        };
        if let Err(refused) = lessons.push(picked) {
            drop(refused);
            return Err(Failure::NoMemory);
        }
    }
    Ok(lessons)
}

/// Returns the line on a lesson: its place, and its command. Errors: memory ran out.
pub(crate) fn lesson_line(alloc: Global, file: &str, lesson: &Test) -> Result<String, AllocError>
    ensures { IfOk result (λ line. string_bytes line ≡ heading file.now lesson.now) }
{
    let number = lesson.line.to_string(alloc)?;
    let command = command_of(alloc, lesson)?;
    let mut line = String::from_str(alloc, file)?;
    line.push_str(":")?;
    line.push_str(number.as_str())?;
    line.push_str(": ")?;
    line.push_str(command.as_str())?;
    Ok(line)
}

/// The comments of a profile: which lesson an entry comes from.
#[derive(Drop)]
pub(crate) struct LessonNotes<'a, 'w> {
    pub files: &'a [FileLessons<'w>],
}

// Returns the line on the lesson with this number, from 0.
fn numbered_line(alloc: Global, file: &FileLessons<'_>, number: usize) -> Result<String, AllocError>
    ensures { IfOk result (λ line. string_bytes line ≡ option_map_or (heading file.now.name.now)
        (slice_get (picked file.now).tests number) (codes "\n")) }
{
    match file.tests.get(number) {
        Some(lesson) => lesson_line(alloc, file.name, lesson),
        None => String::from_str(alloc, "\n"),
    }
}

impl Notes for LessonNotes<'_, '_> {
    ghost note = { λ notes origin. lesson_note (map picked notes.files.now) origin };

    fn line(&self, alloc: Global, entry: Origin) -> Result<String, AllocError> {
        match self.files.get(entry.history) {
            Some(file) => numbered_line(alloc, file, entry.entry.saturating_sub(1)),
            None => String::from_str(alloc, "\n"),
        }
    }
}
