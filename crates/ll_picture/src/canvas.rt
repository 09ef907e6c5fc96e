//! Writes SVG elements.

ghost use Rattle.std.specs.Prelude.{◌≡◌, ◌++◌, IfOk, OnOk, codes, string_bytes};
ghost use Rattle.ll_picture.specs.Pictures.{Begins, Ends, IsFrontOf};

use std::alloc::{AllocError, Global};
use std::fmt;
use std::fmt::Display;
use std::num::nearest_usize_to_f64;

/// What writing returns. It fails only if memory runs out.
pub type Written = Result<(), AllocError>;

/// The width of a character in pixels, in the usual writing and in the small one.
pub const USUAL: f64 = 6.4;

pub const SMALL: f64 = 5.6;

/// Returns the width of a text whose characters have this width.
pub fn width_of(text: &str, width: f64) -> f64 {
    nearest_usize_to_f64(text.chars().count()) * width
}

/// A text cut in the middle to at most this many bytes, with a sign where some are left out.
#[derive(Clone, Copy)]
pub struct Cut<'a> {
    front: &'a str,
    // What comes behind the sign, if there is one.
    back: Option<&'a str>,
}

// Writes a text. Escapes characters with a meaning in SVG, and writes a question mark for those that may not be there.
fn write_escaped<W: fmt::Write>(f: &mut fmt::Formatter<W>, text: &str) -> fmt::Result {
    for c in text.chars() {
        match c {
            '&' => f.write_str("&amp;")?,
            '<' => f.write_str("&lt;")?,
            '>' => f.write_str("&gt;")?,
            '\'' => f.write_str("&#39;")?,
            ' '..='~' | '\u{a0}'..='\u{d7ff}' => f.write_char(c)?,
            _ => f.write_char('?')?,
        }
    }
    Ok(())
}

impl<'a> Cut<'a> {
    pub fn new(text: &'a str, most: usize) -> Cut<'a> {
        if text.len() <= most {
            return Cut::whole(text);
        }
        let behind = most / 2;
        let end = text.floor_char_boundary(most - behind);
        let start = text.floor_char_boundary(text.len() - behind);
        Cut {
            front: &text[..end],
            back: Some(&text[start..]),
        }
    }

    /// Returns the text uncut.
    pub fn whole(text: &'a str) -> Cut<'a> {
        Cut {
            front: text,
            back: None,
        }
    }
}

impl Display for Cut<'_> {
    fn fmt<W: fmt::Write>(&self, f: &mut fmt::Formatter<W>) -> fmt::Result {
        write_escaped(f, self.front)?;
        match self.back {
            Some(back) => {
                f.write_str("…")?;
                write_escaped(f, back)
            }
            None => Ok(()),
        }
    }
}

/// A point, in pixels from the left and from the top.
#[derive(Clone, Copy)]
pub struct Point {
    pub x: f64,
    pub y: f64,
}

impl Point {
    pub fn new(x: f64, y: f64) -> Point {
        Point { x, y }
    }

    /// Returns the point moved to the right and down.
    pub fn by(self, right: f64, down: f64) -> Point {
        Point::new(self.x + right, self.y + down)
    }
}

impl Display for Point {
    fn fmt<W: fmt::Write>(&self, f: &mut fmt::Formatter<W>) -> fmt::Result {
        let Point { x, y } = *self;
        write!(f, "{x:.1} {y:.1}")
    }
}

/// A small sign.
#[derive(Clone, Copy)]
pub enum Sign {
    /// A circle of this radius.
    Dot(f64),
    Diamond,
    Cross,
    /// A tip to the right, which says that a line goes on.
    Tip,
}

/// The text of a picture, or of a part of one, as it grows. An element's class names its style.
#[derive(Drop)]
pub struct Canvas {
    text: String,
}

impl Canvas {
    /// Returns an empty part of a picture.
    pub fn new(alloc: Global) -> Canvas {
        Canvas {
            text: String::new(alloc),
        }
    }

    /// Begins a picture of this size.
    pub fn open(alloc: Global, width: f64, height: f64) -> Result<Canvas, AllocError>
        ensures { IfOk result (λ canvas. Begins (string_bytes canvas.text)) }
    {
        let size = format!(in alloc;
            "width='{width:.0}' height='{height:.0}' viewBox='0 0 {width:.0} {height:.0}'>\n"
        )?;
        let mut text = String::from_str(alloc, "<svg xmlns='http://www.w3.org/2000/svg' ")?;
        text.push_str(size.as_str())?;
        Ok(Canvas { text })
    }

    /// Appends elements.
    pub fn add(&mut self, elements: &str) -> Written
        ensures { OnOk result (IsFrontOf (string_bytes self.old.text) (string_bytes self.new.text)) }
    {
        self.text.push_str(elements)
    }

    /// Begins a group in the colour of this row's client; grey without a row.
    pub fn begin_group(&mut self, row: Option<usize>) -> Written
        ensures { OnOk result (IsFrontOf (string_bytes self.old.text) (string_bytes self.new.text)) }
    {
        match row {
            Some(row) => {
                let group = format!(in *self.text.allocator(); "<g class='tint{row}'>\n")?;
                self.add(group.as_str())
            }
            None => self.add("<g class='grey'>\n"),
        }
    }

    /// Begins a group that shows this title when pointed at.
    pub fn begin_title(&mut self, title: Cut<'_>) -> Written {
        writeln!(self.text, "<g><title>{title}</title>")
    }

    pub fn end_group(&mut self) -> Written
        ensures { OnOk result (IsFrontOf (string_bytes self.old.text) (string_bytes self.new.text)) }
    {
        self.add("</g>\n")
    }

    /// Writes a row's colour as a style: its hue and its lightness.
    pub fn tint(&mut self, row: usize, hue: usize, lightness: usize) -> Written {
        writeln!(self.text, ".tint{row}{{color:hsl({hue},70%,{lightness}%)}}")
    }

    /// Draws a box with this upper left corner.
    pub fn rect(&mut self, class: &str, corner: Point, width: f64, height: f64) -> Written {
        let Point { x, y } = corner;
        writeln!(
            self.text,
            "<rect class='{class}' x='{x:.1}' y='{y:.1}' width='{width:.1}' height='{height:.1}' rx='3'/>"
        )
    }

    pub fn line(&mut self, class: &str, from: Point, to: Point) -> Written
        ensures { OnOk result (IsFrontOf (string_bytes self.old.text) (string_bytes self.new.text)) }
    {
        let path = format!(in *self.text.allocator();
            "<path class='{class}' d='M{from} L{to}'/>\n"
        )?;
        self.add(path.as_str())
    }

    /// Draws a sign around this point.
    pub fn sign(&mut self, class: &str, sign: Sign, at: Point) -> Written {
        let Point { x, y } = at;
        match sign {
            Sign::Dot(radius) => {
                writeln!(
                    self.text,
                    "<circle class='{class}' cx='{x:.1}' cy='{y:.1}' r='{radius:.1}'/>"
                )
            }
            Sign::Diamond => {
                let (top, bottom) = (at.by(0.0, -5.5), at.by(0.0, 5.5));
                let (left, right) = (at.by(-5.5, 0.0), at.by(5.5, 0.0));
                writeln!(
                    self.text,
                    "<path class='{class}' d='M{top} L{right} L{bottom} L{left} Z'/>"
                )
            }
            Sign::Cross => {
                self.line(class, at.by(-3.5, -3.5), at.by(3.5, 3.5))?;
                self.line(class, at.by(-3.5, 3.5), at.by(3.5, -3.5))
            }
            Sign::Tip => {
                let (from, middle, to) = (at.by(2.0, -4.0), at.by(6.0, 0.0), at.by(2.0, 4.0));
                writeln!(
                    self.text,
                    "<path class='{class}' d='M{from} L{middle} L{to}'/>"
                )
            }
        }
    }

    /// Writes words, beginning at the point.
    pub fn write(&mut self, class: &str, from: Point, words: Cut<'_>) -> Written {
        let Point { x, y } = from;
        writeln!(
            self.text,
            "<text class='{class}' x='{x:.1}' y='{y:.1}'>{words}</text>"
        )
    }

    /// Writes words that rise to the right, `below` pixels under the line through the point. Shows at most `most`
    /// characters, and all of them when pointed at.
    pub fn write_rising(
        &mut self,
        class: &str,
        from: Point,
        below: f64,
        words: &str,
        most: usize,
    ) -> Written
        ensures { OnOk result (IsFrontOf
            (string_bytes self.old.text ++ (codes "<text class='" ++ class.now ++ codes "' "))
            (string_bytes self.new.text)) }
    {
        let shown = Cut::new(words, most);
        let whole = Cut::whole(words);
        let rest = format!(in *self.text.allocator();
            "transform='translate({from}) rotate(-55)' y='{below:.1}'><title>{whole}</title>{shown}</text>\n"
        )?;
        self.text.push_str("<text class='")?;
        self.text.push_str(class)?;
        self.text.push_str("' ")?;
        self.text.push_str(rest.as_str())?;
        Ok(())
    }

    /// Ends the picture.
    pub fn close(&mut self) -> Written
        ensures front { OnOk result (IsFrontOf (string_bytes self.old.text) (string_bytes self.new.text)) }
        ensures ends { OnOk result (Ends (string_bytes self.new.text)) }
    {
        self.text.push_str("</svg>\n")
    }

    /// Returns the text so far.
    pub fn as_str(&self) -> &str {
        self.text.as_str()
    }

    pub fn into_text(self) -> String
        ensures { string_bytes result ≡ string_bytes self.text }
    {
        self.text
    }
}
