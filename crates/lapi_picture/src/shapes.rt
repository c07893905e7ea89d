ghost use Rattle.std.specs.Prelude.{◌≡◌, ◌++◌, OnOk};
ghost use Rattle.lapi_picture.specs.Fixed.{fixed_text};
ghost use Rattle.lapi_picture.specs.Shapes.{attribute, bar_shape, line_shape, mark_shape, text_at};

use crate::fixed::Fixed;
use lapi_base::Memory;

/// Appends a number that a shape has.
#[tactic(auto, unfolding(crate::specs::Shapes::attribute))]
pub fn add_attribute(out: &mut String, name: &str, value: u64) -> Result<(), Memory>
    ensures { OnOk result (out.new.bytes.items ≡ out.old.bytes.items ++ attribute name.now value) }
{
    out.push_str(" ")?;
    out.push_str(name)?;
    write!(out, "=\"{value}\"")?;
    Ok(())
}

/// Appends a line between two points.
#[tactic(auto, unfolding(crate::specs::Shapes::line_shape))]
pub fn add_line(
    out: &mut String,
    class: &str,
    x1: u64,
    y1: u64,
    x2: u64,
    y2: u64,
) -> Result<(), Memory>
    ensures { OnOk result (out.new.bytes.items ≡ out.old.bytes.items ++ line_shape class.now x1 y1 x2 y2) }
{
    out.push_str(Fixed::Line.text())?;
    out.push_str(class)?;
    out.push_str(Fixed::NameEnd.text())?;
    add_attribute(out, "x1", x1)?;
    add_attribute(out, "y1", y1)?;
    add_attribute(out, "x2", x2)?;
    add_attribute(out, "y2", y2)?;
    out.push_str(Fixed::ShapeEnd.text())?;
    Ok(())
}

/// Begins a text that stands here.
#[tactic(auto, unfolding(crate::specs::Shapes::text_at))]
pub fn begin_text(out: &mut String, x: u64, y: u64) -> Result<(), Memory>
    ensures { OnOk result (out.new.bytes.items ≡ out.old.bytes.items ++ text_at x y) }
{
    out.push_str(Fixed::Text.text())?;
    add_attribute(out, "x", x)?;
    add_attribute(out, "y", y)?;
    out.push_str(">")?;
    Ok(())
}

pub fn end_text(out: &mut String) -> Result<(), Memory>
    ensures { OnOk result (out.new.bytes.items ≡ out.old.bytes.items ++ fixed_text Fixed.TextEnd) }
{
    out.push_str(Fixed::TextEnd.text())?;
    Ok(())
}

/// Appends a mark of this name.
#[tactic(auto, unfolding(crate::specs::Shapes::mark_shape))]
pub fn add_mark(out: &mut String, name: &str, x: u64, y: u64) -> Result<(), Memory>
    ensures { OnOk result (out.new.bytes.items ≡ out.old.bytes.items ++ mark_shape name.now x y) }
{
    out.push_str(Fixed::Mark.text())?;
    out.push_str(name)?;
    out.push_str(Fixed::NameEnd.text())?;
    add_attribute(out, "x", x)?;
    add_attribute(out, "y", y)?;
    out.push_str(Fixed::ShapeEnd.text())?;
    Ok(())
}

/// Appends the bar of a job.
#[tactic(auto, unfolding(crate::specs::Shapes::bar_shape))]
pub fn add_bar(out: &mut String, x: u64, y: u64, height: u64) -> Result<(), Memory>
    ensures { OnOk result (out.new.bytes.items ≡ out.old.bytes.items ++ bar_shape x y height) }
{
    out.push_str(Fixed::Bar.text())?;
    add_attribute(out, "x", x)?;
    add_attribute(out, "y", y)?;
    add_attribute(out, "height", height)?;
    out.push_str(Fixed::ShapeEnd.text())?;
    Ok(())
}
