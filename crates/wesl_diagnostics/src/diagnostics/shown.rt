//! A line of a text as it is shown: without what would change the terminal or the order of its characters, and not too long.

use std::alloc::{AllocError, Global};

/// How many columns a line has at most where it is shown.
const MAX_COLUMNS: usize = 120;

/// How many columns before the marks are shown of a line that is cut.
const SHOWN_BEFORE: usize = 60;

/// What stands for what is cut.
const CUT: &str = "...";

/// How many columns are left of a line that is cut at both ends.
const COLUMNS_LEFT: usize = 114;

/// Whether a character is shown as its number: a control character but the tab, or one that changes the direction of a text.
fn is_escaped(character: char) -> bool {
    match character {
        '\t' => false,
        '\u{61c}' | '\u{200e}' | '\u{200f}' => true,
        '\u{202a}'..='\u{202e}' | '\u{2066}'..='\u{2069}' => true,
        _ => character.is_control(),
    }
}

/// How many columns a character takes.
fn width_of(character: char) -> usize {
    if !is_escaped(character) {
        return 1;
    }
    match u32::from(character) {
        0..=0xf => 5,
        0x10..=0xff => 6,
        0x100..=0xfff => 7,
        _ => 8,
    }
}

/// Adds a character as it is shown.
fn push_shown(out: &mut String, character: char) -> Result<(), AllocError> {
    if is_escaped(character) {
        let alloc = *out.allocator();
        let code = u32::from(character);
        let escaped = format!(in alloc; "\\u{{{code:x}}}")?;
        return out.push_str(escaped.as_str());
    }
    out.push(character)
}

/// How many columns the characters of a line take.
fn columns_of(line: &str) -> usize {
    let mut columns: usize = 0;
    for character in line.chars() {
        columns = columns.saturating_add(width_of(character));
    }
    columns
}

/// Which columns of a line are shown: how many are left out before them, and where they end.
#[derive(Clone, Copy)]
struct Window {
    start: usize,
    end: usize,
}

/// The window of a line that has so many columns, of which so many stand before the marks.
fn window_of(columns: usize, before: usize) -> Window {
    if columns <= MAX_COLUMNS {
        return Window {
            start: 0,
            end: columns,
        };
    }
    let start = before.saturating_sub(SHOWN_BEFORE);
    let end = start.saturating_add(COLUMNS_LEFT).min(columns);
    Window { start, end }
}

/// A line, and what stands below it.
#[derive(Drop)]
struct Rows {
    line: String,
    marks: String,
}

impl Rows {
    /// Adds a character, and marks or blanks below it.
    fn push(&mut self, character: char, mark: char) -> Result<(), AllocError> {
        push_shown(&mut self.line, character)?;
        if character == '\t' && mark == ' ' {
            return self.marks.push('\t');
        }
        for _column in 0..width_of(character) {
            self.marks.push(mark)?;
        }
        Ok(())
    }
}

/// How many characters of marks are blanks, and how many behind them are marks.
fn counts_of(marks: &str) -> (usize, usize) {
    let mut blanks: usize = 0;
    let mut carets: usize = 0;
    for mark in marks.chars() {
        if mark == '^' {
            carets = carets.saturating_add(1);
        } else {
            blanks = blanks.saturating_add(1);
        }
    }
    (blanks, carets)
}

/// How many columns the first characters of a line take, so many of them.
fn columns_before(line: &str, count: usize) -> usize {
    let mut columns: usize = 0;
    let mut left = count;
    for character in line.chars() {
        if left == 0 {
            break;
        }
        columns = columns.saturating_add(width_of(character));
        left -= 1;
    }
    columns
}

/// What stands below the character of this number.
fn mark_at(number: usize, blanks: usize, carets: usize) -> char {
    if number >= blanks && number - blanks < carets {
        '^'
    } else {
        ' '
    }
}

/// Adds the characters of a line that stand in a window, and the marks below them.
fn push_window(
    rows: &mut Rows,
    line: &str,
    window: Window,
    blanks: usize,
    carets: usize,
) -> Result<(), AllocError> {
    let mut column: usize = 0;
    let mut number: usize = 0;
    for character in line.chars() {
        let end = column.saturating_add(width_of(character));
        if column >= window.start && end <= window.end {
            rows.push(character, mark_at(number, blanks, carets))?;
        }
        column = end;
        number = number.saturating_add(1);
    }
    if number <= blanks {
        rows.marks.push('^')?;
    }
    Ok(())
}

/// A line and the marks below it as they are shown.
pub(crate) fn shown_lines(alloc: Global, line: &str, marks: &str) -> Result<String, AllocError> {
    let (blanks, carets) = counts_of(marks);
    let columns = columns_of(line);
    let window = window_of(columns, columns_before(line, blanks));
    let mut rows = Rows {
        line: String::new(alloc),
        marks: String::new(alloc),
    };
    if window.start > 0 {
        rows.line.push_str(CUT)?;
        rows.marks.push_str("   ")?;
    }
    push_window(&mut rows, line, window, blanks, carets)?;
    if window.end < columns {
        rows.line.push_str(CUT)?;
    }
    joined(rows)
}

/// Both rows, without blanks behind the marks.
fn joined(rows: Rows) -> Result<String, AllocError> {
    let Rows { line, marks } = rows;
    let mut lines = line;
    lines.push('\n')?;
    lines.push_str(marks.as_str().trim_end())?;
    Ok(lines)
}
