//! The head of a picture: the schedule's lines and their outcomes.

ghost use Rattle.std.specs.Prelude.{◌++◌, ℕ, List, OnOk, length, string_bytes};
ghost use Rattle.ll_picture.specs.Pictures.{HasMarks, IsFrontOf, mark};

use crate::canvas::{Canvas, Written};
use crate::scene::Column;
use crate::sheet::{MOST_SHOWN, Page};

fn write_column(canvas: &mut Canvas, page: &Page, index: usize, column: &Column) -> Written
    ensures { OnOk result ((mid : List ℕ) × IsFrontOf (string_bytes canvas.old.text) mid
        × IsFrontOf (mid ++ mark) (string_bytes canvas.new.text)) }
{
    let (top, bottom) = page.ends_of(index);
    let from = top.by(0.0, -6.0);
    canvas.line("column", from.by(0.0, 2.0), bottom)?;
    canvas.begin_group(column.row)?;
    canvas.write_rising("line", from, 0.0, column.line.as_str(), MOST_SHOWN)?;
    canvas.end_group()?;
    canvas.write_rising(
        column.class,
        from,
        13.0,
        column.outcome.as_str(),
        MOST_SHOWN,
    )?;
    Ok(())
}

/// Writes each line and its outcome above its column. Errors: memory ran out.
pub fn write_head(canvas: &mut Canvas, page: &Page, columns: &[Column]) -> Written
    ensures front { OnOk result (IsFrontOf (string_bytes canvas.old.text) (string_bytes canvas.new.text)) }
    ensures marks { OnOk result (HasMarks (length columns.now) (string_bytes canvas.new.text)) }
{
    let mut index: usize = 0;
    for column in columns {
        write_column(canvas, page, index, column)?;
        index = index.saturating_add(1);
    }
    Ok(())
}
