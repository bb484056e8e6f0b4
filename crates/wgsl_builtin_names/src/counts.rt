//! How many arguments a call may have.

use std::fmt;

/// How many arguments a call may have.
#[derive(Clone, Copy, PartialEq, Eq)]
pub enum Counts {
    /// From the first number to the second one.
    Between(u32, u32),
    /// None, or this many.
    NoneOr(u32),
    /// Those of a matrix with so many columns and rows: none, a matrix, its columns or its elements.
    Matrix { columns: u32, rows: u32 },
    /// Any number.
    Any,
}

impl Counts {
    /// Whether a call may have this many arguments.
    pub fn contains(&self, count: u32) -> bool {
        match self {
            Counts::Between(least, most) => *least <= count && count <= *most,
            Counts::NoneOr(all) => count == 0 || count == *all,
            Counts::Matrix { columns, rows } => {
                count <= 1 || count == *columns || count == columns.saturating_mul(*rows)
            }
            Counts::Any => true,
        }
    }
}

/// `2`, `1 or 2`, `3 to 5`, `0 or 7`, `0, 1, 4 or 16`, `any number of`.
impl fmt::Display for Counts {
    fn fmt<W: fmt::Write>(&self, f: &mut fmt::Formatter<W>) -> fmt::Result {
        match self {
            Counts::Between(least, most) if *least == *most => write!(f, "{least}"),
            Counts::Between(least, most) if least.saturating_add(1) == *most => {
                write!(f, "{least} or {most}")
            }
            Counts::Between(least, most) => write!(f, "{least} to {most}"),
            Counts::NoneOr(all) => write!(f, "0 or {all}"),
            Counts::Matrix { columns, rows } => {
                let elements = columns.saturating_mul(*rows);
                write!(f, "0, 1, {columns} or {elements}")
            }
            Counts::Any => f.write_str("any number of"),
        }
    }
}
