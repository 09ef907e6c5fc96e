//! Colours and styles.

use crate::canvas::{Canvas, Written};

/// The degrees of the hue circle that clients use. Signs use the others, from red to yellow.
const HUES: usize = 270;

// The hue of a row's client, in degrees. Consecutive clients get distant hues.
fn hue_of(row: usize) -> usize {
    60 + (152 + 167 * (row % HUES)) % HUES
}

// The lightness of its colour in percent, on white and in the dark. It changes after every eight clients.
fn lightness_of(row: usize) -> (usize, usize) {
    match row / 8 % 3 {
        0 => (38, 70),
        1 => (51, 82),
        _ => (25, 58),
    }
}

/// Writes the colours of the rows' clients, on white and in the dark. Errors: memory ran out.
pub fn write_tints(canvas: &mut Canvas, rows: usize) -> Written {
    canvas.add("<style>\n")?;
    for row in 0..rows {
        canvas.tint(row, hue_of(row), lightness_of(row).0)?;
    }
    canvas.add("@media (prefers-color-scheme:dark){\n")?;
    for row in 0..rows {
        canvas.tint(row, hue_of(row), lightness_of(row).1)?;
    }
    canvas.add("}\n</style>\n")
}

/// The style of each class of elements, on white and in the dark, and the background.
pub const STYLE: &str = "<title>A schedule: a row a client, time to the right</title>
<style>
text{font-family:ui-monospace,SFMono-Regular,Menlo,Consolas,'DejaVu Sans Mono',monospace;font-size:10.5px;fill:#24292f}
path{fill:none}
.grey{color:#57606a}
.sheet{fill:#fff}
.client{font-weight:600;font-size:12px;fill:currentColor}
.line{font-weight:600;fill:currentColor}
.outcome{fill:#57606a}
.refusal{fill:#cf222e}
.not-now{fill:#9a6700}
.number{font-size:8.5px;text-anchor:middle;fill:#57606a}
.name{font-size:9.3px}
.note{font-size:9.8px;fill:#57606a}
.column{stroke:#eaeef2}
.life{stroke:#afb8c1;stroke-width:1.5}
.above{stroke:currentColor;stroke-width:4;stroke-opacity:.55}
.way{stroke:currentColor;stroke-width:1.8}
.ground{fill:#fff}
.mark{fill:currentColor;fill-opacity:.16;stroke:currentColor;stroke-width:1.2}
.stale{fill:url(#hatch);stroke:#bc4c00;stroke-width:1.2}
.hatch{fill:#fff1e5}
.stripe{stroke:#ffc38b;stroke-width:4}
.made,.point{fill:currentColor;stroke:#fff;stroke-width:1.2}
.denied{fill:#fff;stroke:#cf222e;stroke-width:2}
.fork{fill:#fff;stroke:currentColor;stroke-width:1.8}
.move{stroke:#bc4c00;stroke-width:1.6;stroke-dasharray:4 2.5;marker-end:url(#move)}
.move-tip{fill:#bc4c00}
.back{stroke:currentColor;stroke-width:1.8;stroke-dasharray:2 2;marker-end:url(#back)}
.back-tip{fill:#57606a}
.cross{stroke:#9a6700;stroke-width:2}
.wait{stroke:#9a6700;stroke-width:1.3;marker-end:url(#wait)}
.wait-tip{fill:#9a6700}
.gate{stroke:#d4a72c;stroke-width:3}
.goes-on{stroke:currentColor;stroke-width:2}
@media (prefers-color-scheme:dark){
text{fill:#e6edf3}
.grey{color:#9198a1}
.sheet,.ground{fill:#0d1117}
.outcome,.number,.note{fill:#9198a1}
.refusal{fill:#ff7b72}
.not-now{fill:#e3b341}
.column{stroke:#21262d}
.life{stroke:#484f58}
.mark{fill-opacity:.3}
.stale{stroke:#f0883e}
.hatch{fill:#3d1e00}
.stripe{stroke:#9a4b0b}
.made,.point{stroke:#0d1117}
.denied{fill:#0d1117;stroke:#ff7b72}
.fork{fill:#0d1117}
.move{stroke:#f0883e}
.move-tip{fill:#f0883e}
.back-tip{fill:#9198a1}
.cross,.wait{stroke:#e3b341}
.wait-tip{fill:#e3b341}
.gate{stroke:#bb8009}
}
</style>
<defs>
<pattern id='hatch' width='6' height='6' patternUnits='userSpaceOnUse' patternTransform='rotate(45)'>
<rect class='hatch' width='6' height='6'/><path class='stripe' d='M0 0V6'/>
</pattern>
<marker id='move' viewBox='0 0 8 8' refX='7' refY='4' markerWidth='7' markerHeight='7'
 markerUnits='userSpaceOnUse' orient='auto'><path class='move-tip' d='M0 0L8 4L0 8Z'/></marker>
<marker id='back' viewBox='0 0 8 8' refX='7' refY='4' markerWidth='7' markerHeight='7'
 markerUnits='userSpaceOnUse' orient='auto'><path class='back-tip' d='M0 0L8 4L0 8Z'/></marker>
<marker id='wait' viewBox='0 0 8 8' refX='7' refY='4' markerWidth='7' markerHeight='7'
 markerUnits='userSpaceOnUse' orient='auto'><path class='wait-tip' d='M0 0L8 4L0 8Z'/></marker>
</defs>
<rect class='sheet' width='100%' height='100%'/>
";
