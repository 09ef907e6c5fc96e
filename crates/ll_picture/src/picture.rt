//! Draws the whole picture.

ghost use Rattle.std.specs.Prelude.{IfOk, length, string_bytes};
ghost use Rattle.ll_picture.specs.Pictures.{IsPicture};

use crate::canvas::{Canvas, Cut, Point, Written};
use crate::head::write_head;
use crate::legend::Legend;
use crate::scene::{Band, Column};
use crate::sheet::{MARGIN, Page, Sheet};
use crate::style::{STYLE, write_tints};
use crate::track::draw_row;
use std::alloc::{AllocError, Global};

// Writes the number of each line below its column. `first` is that of the first line, from 0.
fn write_numbers(
    alloc: Global,
    canvas: &mut Canvas,
    page: &Page,
    first: usize,
    count: usize,
) -> Written {
    for index in 0..count {
        let number = first
            .saturating_add(index)
            .saturating_add(1)
            .to_string(alloc)?;
        let (_, bottom) = page.ends_of(index);
        canvas.write("number", bottom.by(0.0, 10.0), Cut::whole(number.as_str()))?;
    }
    Ok(())
}

// Draws the rows of a band, and over them the arrows from one row to another.
fn draw_band(alloc: Global, canvas: &mut Canvas, sheet: &Sheet, band: &Band) -> Written {
    let mut above = Canvas::new(alloc);
    for (index, row) in band.rows.iter().enumerate() {
        if sheet.has(index) {
            draw_row(alloc, canvas, &mut above, sheet, index, row)?;
        }
    }
    canvas.add(above.as_str())
}

// Draws the rows of all bands.
fn draw_bands(alloc: Global, page: &Page, bands: &[Band]) -> Result<Canvas, AllocError> {
    let mut canvas = Canvas::new(alloc);
    let rows = match bands.last() {
        Some(band) => band.rows.len(),
        None => 0,
    };
    write_tints(&mut canvas, rows)?;
    for (sheet, band) in page.sheets.iter().zip(bands) {
        draw_band(alloc, &mut canvas, sheet, band)?;
    }
    Ok(canvas)
}

/// Returns the picture of these lines and of what happens in them, as SVG. Errors: memory ran out.
pub fn picture_of(alloc: Global, columns: &[Column], bands: &[Band]) -> Result<String, AllocError>
    ensures { IfOk result (λ text. IsPicture (length columns.now) (string_bytes text)) }
{
    let page = Page::new(alloc, columns, bands)?;
    let mut rows = draw_bands(alloc, &page, bands)?;
    let first = match bands.first() {
        Some(band) => band.first,
        None => 0,
    };
    write_numbers(alloc, &mut rows, &page, first, columns.len())?;
    let edge = Point::new(MARGIN, page.bottom);
    let legend = Legend::new(alloc, rows.as_str(), edge.y + 18.0, page.width)?;
    let mut head = Canvas::open(alloc, page.width, legend.bottom)?;
    head.add(STYLE)?;
    write_head(&mut head, &page, columns)?;
    rows.line("column", edge, Point::new(page.width - MARGIN, edge.y))?;
    legend.draw(&mut rows)?;
    head.add(rows.as_str())?;
    head.close()?;
    Ok(head.into_text())
}
