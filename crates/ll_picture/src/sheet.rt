//! The layout of a picture, in pixels.

use crate::canvas::{Point, USUAL, Written, width_of};
use crate::scene::{BAND, Band, Column, Event, Row};
use std::alloc::{AllocError, Global};
use std::num::nearest_usize_to_f64;

/// The most characters that are shown of a line, and of its outcome.
pub const MOST_SHOWN: usize = 56;
/// The distance between the bars of two marks.
pub const STEP: f64 = 22.0;
/// The free space at the edges.
pub const MARGIN: f64 = 16.0;
/// Where the first column begins.
const LEFT: f64 = 92.0;
/// How far the head's writing rises, and how far it goes to the right, for each pixel of its length.
const RISE: f64 = 0.82;

const RUN: f64 = 0.58;
/// The height of a row above its client's line, and below its lowest bar.
const ABOVE: f64 = 30.0;

const BELOW: f64 = 24.0;
/// The least width of a picture.
const NARROWEST: f64 = 560.0;

/// Where the columns and rows of a band begin and end.
#[derive(Drop)]
pub struct Sheet {
    pitch: f64,
    // The first line of the band, from 0.
    first: usize,
    /// Where the head ends and the first row begins.
    pub top: f64,
    /// Where the last row ends.
    pub bottom: f64,
    /// Where the writing ends.
    pub width: f64,
    /// Where the last column ends.
    pub end: f64,
    // The height of each row's client line, from the top; None for a row that isn't drawn.
    lines: Vec<Option<f64>>,
}

// How far down the bars of the row's walks reach. None if the row's client does nothing but come, and has no walk under
// way.
fn depth_of(row: &Row) -> Option<f64> {
    let mut deepest = None;
    for moment in row.moments.iter() {
        let depth = match &moment.event {
            Event::Came => continue,
            Event::Stands(_, spot) => STEP * nearest_usize_to_f64(spot.bar),
            _ => 0.0,
        };
        deepest = Some(deepest.unwrap_or(0.0f64).max(depth));
    }
    deepest
}

// The length of the writing at the head of a column.
fn writing_of(column: &Column) -> f64 {
    let line = width_of(column.line.as_str(), USUAL);
    let outcome = width_of(column.outcome.as_str(), USUAL);
    let most = nearest_usize_to_f64(MOST_SHOWN.saturating_add(1)) * USUAL;
    line.max(outcome).min(most)
}

impl Sheet {
    // A sheet from this height on, for these columns.
    fn of_columns(alloc: Global, from: f64, pitch: f64, first: usize, columns: &[Column]) -> Sheet {
        let end = LEFT + pitch * nearest_usize_to_f64(columns.len());
        let mut height = 0.0f64;
        let mut width = end;
        for (index, column) in columns.iter().enumerate() {
            let writing = writing_of(column);
            let begin = LEFT + pitch * nearest_usize_to_f64(index);
            height = height.max(writing * RISE);
            width = width.max(begin + pitch + writing * RUN);
        }
        let top = from + MARGIN + height + MARGIN;
        Sheet {
            pitch,
            first,
            top,
            bottom: top,
            width,
            end,
            lines: Vec::new(alloc),
        }
    }

    // Adds these rows.
    fn add_rows(&mut self, rows: &[Row]) -> Written {
        for row in rows {
            let depth = depth_of(row);
            self.lines.push(depth.map(|_| self.bottom + ABOVE))?;
            if let Some(depth) = depth {
                self.bottom += ABOVE + depth + BELOW;
            }
        }
        Ok(())
    }

    /// Reports whether the line comes before those that are drawn.
    pub fn is_before(&self, line: usize) -> bool {
        line < self.first
    }

    /// Returns the position of a line of the schedule, from the left. Lines before the first that is drawn are at the
    /// left edge.
    pub fn column(&self, line: usize) -> f64 {
        if self.is_before(line) {
            return LEFT;
        }
        LEFT + self.pitch * (nearest_usize_to_f64(line.saturating_sub(self.first)) + 0.5)
    }

    /// Reports whether the row is drawn.
    pub fn has(&self, row: usize) -> bool {
        matches!(self.lines.get(row), Some(Some(_)))
    }

    /// Returns the height of a row's client line, from the top.
    pub fn line(&self, row: usize) -> f64 {
        match self.lines.get(row) {
            Some(Some(line)) => *line,
            _ => self.top,
        }
    }
}

/// The sheets of all bands, one below the other, and the width of the picture.
#[derive(Drop)]
pub struct Page {
    pub sheets: Vec<Sheet>,
    pub width: f64,
    pub bottom: f64,
}

impl Page {
    /// Returns a page with room for these columns, and for what happens in them. Errors: memory ran out.
    pub fn new(alloc: Global, columns: &[Column], bands: &[Band]) -> Result<Page, AllocError> {
        let side = columns.len().min(BAND);
        let pitch = (1000.0 / nearest_usize_to_f64(side)).max(36.0).min(54.0);
        let mut page = Page {
            sheets: Vec::new(alloc),
            width: NARROWEST,
            bottom: 0.0,
        };
        for (columns, band) in columns.chunks(BAND).zip(bands) {
            let mut sheet = Sheet::of_columns(alloc, page.bottom, pitch, band.first, columns);
            sheet.add_rows(band.rows.as_slice())?;
            page.width = page.width.max(sheet.width);
            page.bottom = sheet.bottom + MARGIN;
            page.sheets.push(sheet)?;
        }
        page.width += MARGIN;
        page.bottom = page.bottom.max(MARGIN);
        Ok(page)
    }

    /// Returns the middle of this column, right below the head of its band and right below its rows.
    pub fn ends_of(&self, index: usize) -> (Point, Point) {
        match self.sheets.get(index / BAND) {
            Some(sheet) => {
                let x = sheet.column(sheet.first.saturating_add(index % BAND));
                (Point::new(x, sheet.top), Point::new(x, sheet.bottom))
            }
            None => (Point::new(0.0, 0.0), Point::new(0.0, 0.0)),
        }
    }
}
