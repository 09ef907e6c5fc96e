//! Draws the row of a client.

use crate::canvas::{Canvas, Cut, Point, SMALL, Sign, Written};
use crate::scene::{Branch, Ending, Event, Obstacle, Row, Spot, Wait};
use crate::sheet::{MARGIN, STEP, Sheet};
use std::alloc::Global;
use std::num::{nearest_usize_to_f64, saturating_f64_to_usize};

/// Half the height of a bar.
const HALF: f64 = 8.5;

// The mark on a directory, and from where on it has yet to be drawn.
#[derive(Clone, Copy)]
struct Mark<'a> {
    spot: &'a Spot,
    y: f64,
    since: f64,
}

impl<'a> Mark<'a> {
    // Draws the bar of the mark up to `x`, if the mark was there before.
    fn draw(self, canvas: &mut Canvas, x: f64, is_stale: bool) -> Written {
        let width = x - self.since;
        if width < 1.0 {
            return Ok(());
        }
        let room = saturating_f64_to_usize((width - 7.0) / SMALL);
        let corner = Point::new(self.since, self.y - HALF);
        let (class, name) = if is_stale {
            ("stale", "stale")
        } else {
            ("mark", self.spot.name.as_str())
        };
        canvas.begin_title(Cut::whole(self.spot.path.as_str()))?;
        canvas.rect("ground", corner, width, HALF + HALF)?;
        canvas.rect(class, corner, width, HALF + HALF)?;
        canvas.write("name", corner.by(6.0, 12.0), Cut::new(name, room))?;
        canvas.end_group()
    }

    // The mark from `x` on.
    fn from_here(self, x: f64) -> Mark<'a> {
        Mark { since: x, ..self }
    }
}

// A row drawn up to some column, with the heights of the client's line and of the walk's lowest bar.
#[derive(Drop)]
struct Pen<'a> {
    line: f64,
    lowest: f64,
    // Where the walk came above the root, if it is there.
    above: Option<f64>,
    trunk: Option<Mark<'a>>,
    first: Option<Mark<'a>>,
    second: Option<Mark<'a>>,
    // Where the walk forked.
    fork: Option<Point>,
    is_stale: bool,
    // Where the walk took the gate.
    gate: Option<f64>,
}

impl<'a> Pen<'a> {
    fn new(line: f64) -> Pen<'a> {
        Pen {
            line,
            lowest: line,
            above: None,
            trunk: None,
            first: None,
            second: None,
            fork: None,
            is_stale: false,
            gate: None,
        }
    }

    // The point on the client's line.
    fn on_line(&self, x: f64) -> Point {
        Point::new(x, self.line)
    }

    // Draws all marks up to `x`, and the fork.
    fn draw_marks(&mut self, canvas: &mut Canvas, x: f64) -> Written {
        for mark in [self.trunk, self.first, self.second].into_iter().flatten() {
            mark.draw(canvas, x, self.is_stale)?;
        }
        match self.fork.take() {
            Some(fork) => canvas.sign("fork", Sign::Dot(4.0), fork),
            None => Ok(()),
        }
    }

    // Ends the line of a walk above the root.
    fn leave_above(&mut self, canvas: &mut Canvas, x: f64) -> Written {
        match self.above.take() {
            Some(since) if since < x => canvas.line("above", self.on_line(since), self.on_line(x)),
            _ => Ok(()),
        }
    }

    // Draws what is under way up to `x`, where it ends.
    fn end(&mut self, canvas: &mut Canvas, x: f64) -> Written {
        self.leave_above(canvas, x)?;
        self.draw_marks(canvas, x)?;
        self.trunk = None;
        self.first = None;
        self.second = None;
        self.lowest = self.line;
        self.is_stale = false;
        Ok(())
    }

    // Shows that what is under way at `x` goes on.
    fn go_on(&self, canvas: &mut Canvas, x: f64) -> Written {
        if self.above.is_some() {
            canvas.sign("goes-on", Sign::Tip, self.on_line(x))?;
        }
        for mark in [self.trunk, self.first, self.second].into_iter().flatten() {
            canvas.sign("goes-on", Sign::Tip, Point::new(x, mark.y))?;
        }
        Ok(())
    }

    fn mark_of(&self, branch: Branch) -> Option<Mark<'a>> {
        match branch {
            Branch::Trunk => self.trunk,
            Branch::First => self.first,
            Branch::Second => self.second,
        }
    }

    // Draws the walk's descent into this directory.
    fn descend(&mut self, canvas: &mut Canvas, x: f64, branch: Branch, spot: &'a Spot) -> Written {
        self.leave_above(canvas, x)?;
        let before = self.mark_of(branch);
        if let Some(mark) = before {
            mark.draw(canvas, x, self.is_stale)?;
        }
        let upper = match before.or(self.trunk) {
            Some(mark) => mark.y + HALF,
            None => self.line,
        };
        let y = self.line + STEP * nearest_usize_to_f64(spot.bar);
        canvas.line("way", Point::new(x, upper), Point::new(x, y - HALF))?;
        self.lowest = y;
        let mark = Some(Mark { spot, y, since: x });
        match branch {
            Branch::Trunk => self.trunk = mark,
            Branch::First => self.first = mark,
            Branch::Second => self.second = mark,
        }
        Ok(())
    }

    // Draws the walk as stale from `x` on. The client at height `mover` moved a directory on its way.
    fn overtake(&mut self, canvas: &mut Canvas, x: f64, mover: f64) -> Written {
        self.draw_marks(canvas, x)?;
        self.is_stale = true;
        self.trunk = self.trunk.map(|mark| mark.from_here(x));
        self.first = self.first.map(|mark| mark.from_here(x));
        self.second = self.second.map(|mark| mark.from_here(x));
        let (from, to) = if mover < self.line {
            (mover + 7.0, self.lowest - HALF - 1.0)
        } else {
            (mover - 7.0, self.lowest + HALF + 1.0)
        };
        canvas.line("move", Point::new(x, from), Point::new(x, to))
    }

    fn restart(&mut self, canvas: &mut Canvas, x: f64) -> Written {
        let from = Point::new(x, self.lowest);
        self.end(canvas, x)?;
        self.above = Some(x);
        canvas.line("back", from, self.on_line(x).by(0.0, 3.0))
    }

    fn draw_gate(&mut self, canvas: &mut Canvas, x: f64) -> Written {
        match self.gate.take() {
            Some(since) => {
                let from = self.on_line(since).by(0.0, -6.0);
                canvas.line("gate", from, self.on_line(x).by(0.0, -6.0))
            }
            None => Ok(()),
        }
    }

    fn answer(&mut self, canvas: &mut Canvas, x: f64, ending: Ending) -> Written {
        let lowest = Point::new(x, self.lowest);
        self.end(canvas, x)?;
        self.draw_gate(canvas, x)?;
        canvas.line("way", lowest, self.on_line(x))?;
        canvas.sign(ending.class("point"), Sign::Dot(4.5), self.on_line(x))
    }

    // Draws a cross below the walk's lowest bar, or on the client's line.
    fn cross(&self, canvas: &mut Canvas, x: f64, wait: &Wait) -> Written {
        canvas.begin_title(Cut::whole(wait.reason.as_str()))?;
        canvas.sign("cross", Sign::Cross, Point::new(x, self.cross_height()))?;
        canvas.end_group()
    }

    // The height of a cross.
    fn cross_height(&self) -> f64 {
        if self.above.is_none() && self.trunk.is_none() {
            self.line
        } else {
            self.lowest + HALF + 5.5
        }
    }

    // Draws an arrow from the cross to the obstacle.
    fn point_at(&self, canvas: &mut Canvas, sheet: &Sheet, x: f64, obstacle: Obstacle) -> Written {
        let cross = self.cross_height();
        let line = sheet.line(obstacle.row);
        let (middle, half) = match obstacle.bar {
            Some(bar) => (line + STEP * nearest_usize_to_f64(bar), HALF),
            None => (line - 6.0, 1.5),
        };
        let (from, to) = if middle < cross {
            (cross - 5.0, middle + half + 1.0)
        } else {
            (cross + 5.0, middle - half - 1.0)
        };
        canvas.line("wait", Point::new(x, from), Point::new(x, to))
    }

    fn draw(&mut self, canvas: &mut Canvas, sheet: &Sheet, x: f64, event: &'a Event) -> Written {
        let at = self.on_line(x);
        match event {
            Event::Came => canvas.line("way", at.by(0.0, -5.0), at.by(0.0, 5.0)),
            Event::Begun => {
                self.above = Some(x);
                canvas.sign("point", Sign::Dot(4.5), at)
            }
            Event::Stands(branch, spot) => self.descend(canvas, x, *branch, spot),
            Event::Forked => {
                self.fork = Some(Point::new(x, self.lowest));
                Ok(())
            }
            Event::Overtaken(mover) => self.overtake(canvas, x, sheet.line(*mover)),
            Event::Restarted => self.restart(canvas, x),
            Event::HasGate => {
                self.gate = self.gate.or(Some(x));
                Ok(())
            }
            Event::Answered(ending) => self.answer(canvas, x, *ending),
            Event::Made(ending) => canvas.sign(ending.class("made"), Sign::Diamond, at),
            Event::NotNow(wait) => self.cross(canvas, x, wait),
        }
    }
}

// Draws the client's number, and its line from where it begins.
fn draw_line(
    alloc: Global,
    canvas: &mut Canvas,
    sheet: &Sheet,
    index: usize,
    row: &Row,
) -> Written {
    let y = sheet.line(index);
    let client = format!(in alloc; "client {}", index.saturating_add(1))?;
    let client = Cut::whole(client.as_str());
    canvas.write("client", Point::new(MARGIN, y + 4.0), client)?;
    match row.moments.first() {
        Some(came) => {
            let from = Point::new(sheet.column(came.line), y);
            canvas.line("life", from, Point::new(sheet.end, y))
        }
        None => Ok(()),
    }
}

/// Draws a client's number and what happens to it, and into `above`, which covers all rows, the obstacles of its steps.
/// What is under way at the end goes on to the edge. Errors: memory ran out.
pub fn draw_row(
    alloc: Global,
    canvas: &mut Canvas,
    above: &mut Canvas,
    sheet: &Sheet,
    index: usize,
    row: &Row,
) -> Written {
    let mut pen = Pen::new(sheet.line(index));
    // What happened before the first line of the band shows only in what is left of it.
    let mut before = Canvas::new(alloc);
    canvas.begin_group(Some(index))?;
    draw_line(alloc, canvas, sheet, index, row)?;
    for moment in row.moments.iter() {
        let x = sheet.column(moment.line);
        if sheet.is_before(moment.line) {
            pen.draw(&mut before, sheet, x, &moment.event)?;
            continue;
        }
        pen.draw(canvas, sheet, x, &moment.event)?;
        if let Event::NotNow(wait) = &moment.event
            && let Some(obstacle) = wait.obstacle
        {
            pen.point_at(above, sheet, x, obstacle)?;
        }
    }
    pen.go_on(canvas, sheet.end)?;
    pen.end(canvas, sheet.end)?;
    pen.draw_gate(canvas, sheet.end)?;
    canvas.end_group()
}
