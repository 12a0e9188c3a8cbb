//! All columns, rows and arrows of a picture.

ghost use Rattle.std.specs.Prelude.{Some};
ghost use Rattle.std.specs.List.{flat_map};
ghost use Rattle.picture.specs.Picture.{arrow_text, band_text, column_text, shape_text};
ghost use Rattle.picture.specs.Rows.{room_in};

use crate::drawing::Picture;
use crate::svg::shapes::{Band, RowShape};
use crate::window::room_in;
use std::fmt::{self, Display, Formatter};

/// Columns, one behind the other.
#[derive(Clone, Copy)]
pub struct Columns<'a>(pub &'a Picture<'a>);

impl Display for Columns<'_> {
    ghost output = { λ picture. Some (flat_map column_text picture.0.now.columns.items) };

    fn fmt<W: fmt::Write>(&self, f: &mut Formatter<W>) -> fmt::Result {
        for column in &self.0.columns {
            write!(f, "{column}")?;
        }
        Ok(())
    }
}

/// Arrows, one behind the other.
#[derive(Clone, Copy)]
pub struct Arrows<'a>(pub &'a Picture<'a>);

impl Display for Arrows<'_> {
    ghost output = { λ picture. Some (flat_map arrow_text picture.0.now.arrows.items) };

    fn fmt<W: fmt::Write>(&self, f: &mut Formatter<W>) -> fmt::Result {
        for arrow in &self.0.arrows {
            write!(f, "{arrow}")?;
        }
        Ok(())
    }
}

/// The bands of rows: behind the one at fault there is room for the sentence.
#[derive(Clone, Copy)]
pub struct Bands<'a>(pub &'a Picture<'a>);

impl Display for Bands<'_> {
    ghost output = { λ picture. Some (flat_map (band_text (room_in picture.0.now.gap)) picture.0.now.rows.items) };

    fn fmt<W: fmt::Write>(&self, f: &mut Formatter<W>) -> fmt::Result {
        let room = room_in(self.0.gap);
        for row in &self.0.rows {
            write!(f, "{}", Band { row, room })?;
        }
        Ok(())
    }
}

/// Rows, from above: on a page, where each leads to that of a table, or in a picture alone.
#[derive(Clone, Copy)]
pub struct Shapes<'a> {
    pub picture: &'a Picture<'a>,
    pub linked: bool,
}

impl Display for Shapes<'_> {
    ghost output = { λ shapes. Some (flat_map (shape_text shapes.linked) shapes.picture.now.rows.items) };

    fn fmt<W: fmt::Write>(&self, f: &mut Formatter<W>) -> fmt::Result {
        let linked = self.linked;
        for row in &self.picture.rows {
            write!(f, "{}", RowShape { row, linked })?;
        }
        Ok(())
    }
}
