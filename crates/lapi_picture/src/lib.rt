//! Pictures of a run: a sequence chart, row by row, and packets in the format of captures that other tools read.
#![tactic(auto)]

mod arrows;
mod cargo;
mod chart;
mod deed;
mod fixed;
mod label;
mod page;
mod place;
mod row;
mod rows;
mod shapes;
mod sheet;
mod shown;
mod wanted;
mod words;

pub use cargo::Cargo;
pub use chart::draw_chart;
pub use deed::Deed;
pub use page::Page;
pub use row::Row;
pub use rows::Rows;
pub use shown::page_of;
