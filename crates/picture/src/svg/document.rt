//! The whole of a picture.

ghost use Rattle.std.specs.Prelude.{Some};
ghost use Rattle.picture.specs.Picture.{picture_text, svg_text};

use crate::drawing::Picture;
use crate::svg::captions::{Above, Below, Head, OpeningTag, Sentence};
use crate::svg::element_lists::{Arrows, Bands, Columns, Shapes};
use crate::svg::style::Style;
use std::fmt::{self, Display, Formatter};

/// A picture as an SVG, with rows that lead to those of a table, or without.
#[derive(Clone, Copy)]
pub struct Svg<'a> {
    pub picture: &'a Picture<'a>,
    pub linked: bool,
}

impl Display for Svg<'_> {
    ghost output = { λ svg. Some (svg_text svg.linked svg.picture.now) };

    fn fmt<W: fmt::Write>(&self, f: &mut Formatter<W>) -> fmt::Result {
        let Svg { picture, linked } = *self;
        let (opening, style, bands) = (OpeningTag(picture), Style, Bands(picture));
        let (head, columns, above) = (Head(picture.report), Columns(picture), Above(picture));
        let (arrows, rows) = (Arrows(picture), Shapes { picture, linked });
        let (sentence, below) = (Sentence(picture), Below(picture));
        write!(
            f,
            "{opening}{style}{bands}{head}{columns}{above}{arrows}{rows}{sentence}{below}</svg>\n"
        )
    }
}

impl Display for Picture<'_> {
    ghost output = { λ picture. Some (picture_text picture) };

    fn fmt<W: fmt::Write>(&self, f: &mut Formatter<W>) -> fmt::Result {
        let svg = Svg {
            picture: &*self,
            linked: false,
        };
        write!(f, "{svg}")
    }
}
