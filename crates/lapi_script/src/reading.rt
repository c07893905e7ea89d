//! What reads one line of a text, for the texts of other crates: its words, their values, and the fault of a line.
pub use crate::cuts::first_line;
pub use crate::fault::{LineFault, limit, syntax};
pub use crate::fields::{end, hex, keyword, number, word};
pub use crate::read::at_line;
pub use crate::scan::is_clean;
pub use crate::values::number_of;
pub use crate::words::{Words, is_text};
