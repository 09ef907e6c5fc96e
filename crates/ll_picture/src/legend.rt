//! The legend: what the signs of a picture mean.

use crate::canvas::{Canvas, Cut, Point, Sign, Written};
use crate::sheet::MARGIN;
use std::alloc::{AllocError, Global};

// How a class of elements looks.
#[derive(Clone, Copy)]
enum Look {
    Small(Sign),
    // A dot and a diamond.
    Both,
    Line,
    // A box with this name, which begins so far to the right.
    Named(&'static str, f64),
}

// Each class of signs, how it looks, and its meaning.
const SIGNS: [(&str, Look, &str); 13] = [
    ("made", Look::Small(Sign::Diamond), "a call is made at once"),
    (
        "point",
        Look::Small(Sign::Dot(4.5)),
        "a walk begins, or is answered",
    ),
    ("denied", Look::Both, "refused or denied"),
    ("above", Look::Line, "the walk is above the root"),
    (
        "mark",
        Look::Named("dir", 8.0),
        "it stands in dir, which it marks",
    ),
    (
        "fork",
        Look::Small(Sign::Dot(4.0)),
        "it leaves what its paths share",
    ),
    ("move", Look::Line, "a move overtakes the walk"),
    (
        "stale",
        Look::Named("stale", 3.0),
        "so it can only start again",
    ),
    ("back", Look::Line, "it starts again"),
    (
        "cross",
        Look::Small(Sign::Cross),
        "not now: nothing happens",
    ),
    ("wait", Look::Line, "what stands in the way of that"),
    ("gate", Look::Line, "it holds the move gate"),
    (
        "goes-on",
        Look::Small(Sign::Tip),
        "the walk is still under way",
    ),
];

/// The width and the height of a sign's place.
const WIDTH: f64 = 240.0;

const HEIGHT: f64 = 22.0;

/// The signs in a picture, as they look, each with its class, its meaning and its place.
#[derive(Drop)]
pub struct Legend {
    signs: Vec<(&'static str, Look, &'static str, Point)>,
    /// Where the legend ends.
    pub bottom: f64,
}

// The place to the right, or the first of the next line if there is no room.
fn next_place(place: Point, width: f64) -> Point {
    let right = place.by(WIDTH, 0.0);
    if right.x + WIDTH > width {
        Point::new(MARGIN, place.y + HEIGHT)
    } else {
        right
    }
}

fn draw_look(canvas: &mut Canvas, class: &str, look: Look, at: Point) -> Written {
    let middle = at.by(17.0, 0.0);
    match look {
        Look::Small(sign) => canvas.sign(class, sign, middle),
        Look::Both => {
            canvas.sign(class, Sign::Diamond, middle.by(-7.0, 0.0))?;
            canvas.sign(class, Sign::Dot(4.5), middle.by(7.0, 0.0))
        }
        Look::Line => canvas.line(class, at, at.by(34.0, 0.0)),
        Look::Named(name, right) => {
            canvas.rect(class, at.by(0.0, -8.0), 34.0, 16.0)?;
            canvas.write("name", at.by(right, 3.5), Cut::whole(name))
        }
    }
}

impl Legend {
    /// Returns the legend of what is drawn, which begins at this height in a picture of this width. Errors: memory ran
    /// out.
    pub fn new(alloc: Global, drawn: &str, top: f64, width: f64) -> Result<Legend, AllocError> {
        let mut signs = Vec::new(alloc);
        let mut place = Point::new(MARGIN, top);
        let mut bottom = top;
        for (class, look, meaning) in SIGNS {
            let sign = format!(in alloc; "class='{class}'")?;
            if drawn.contains(sign.as_str()) {
                signs.push((class, look, meaning, place))?;
                bottom = place.y + HEIGHT;
                place = next_place(place, width);
            }
        }
        Ok(Legend { signs, bottom })
    }

    pub fn draw(&self, canvas: &mut Canvas) -> Written {
        canvas.begin_group(None)?;
        for (class, look, meaning, place) in self.signs.as_slice() {
            draw_look(canvas, class, *look, *place)?;
            canvas.write("note", place.by(42.0, 3.5), Cut::whole(meaning))?;
        }
        canvas.end_group()
    }
}
