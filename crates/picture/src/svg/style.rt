//! What a picture looks like, on a light page and on a dark one.

ghost use Rattle.std.specs.Prelude.{◌≡◌, Some};
ghost use Rattle.picture.specs.Picture.{dark, letters, marks, strokes, style, tip};

use std::fmt::{self, Display, Formatter};

/// Letters, on a light page. A colour stands where it is used, since not every viewer knows variables.
fn letters() -> &'static str
    ensures { result.now ≡ letters }
{
    "<style>\ntext{font:12px ui-monospace,Menlo,Consolas,monospace;fill:#1b1f24}\n.head{font-size:15px;font-weight:700}.vat{font-weight:700}.note{fill:#5b6570}.why{fill:#b3261e}\n.band~.why{stroke:#fbe4e2;stroke-width:4px;paint-order:stroke}\n.plain text,.kin text,.named text{stroke:#fff;stroke-width:4px;paint-order:stroke}.named text{stroke:#fbe4e2}\n"
}

/// Lines.
fn strokes() -> &'static str
    ensures { result.now ≡ strokes }
{
    ".paper{fill:#fff}.life{stroke:#c4cad1;stroke-width:1.5}.band{fill:#fbe4e2}\n.arrow{stroke:#1b1f24;stroke-width:1.2;fill:none;marker-end:url(#tip)}.late{stroke-dasharray:7 4}.canceled{stroke-dasharray:2 4}.tail{stroke-dasharray:9 3 2 3}\n"
}

/// Marks.
fn marks() -> &'static str
    ensures { result.now ≡ marks }
{
    ".dot,.tip{fill:#1b1f24}.tip{fill:context-stroke}.own{fill:#fff;stroke:#1b1f24;stroke-width:1.4}\n.kin text{fill:#1f5fae}.kin .dot{fill:#1f5fae}.kin .own,.kin path{stroke:#1f5fae}\n.fault text{fill:#b3261e;font-weight:700}.fault circle{stroke:#b3261e;fill:#b3261e}.fault path{stroke:#b3261e}\n"
}

/// The colours of all these on a dark page.
fn dark() -> &'static str
    ensures { result.now ≡ dark }
{
    "@media(prefers-color-scheme:dark){\ntext{fill:#e4e7ea}.note{fill:#9aa4ae}.why{fill:#ff8a80}.band~.why{stroke:#4a1f1c}.plain text,.kin text,.named text{stroke:#14171a}.named text{stroke:#4a1f1c}\n.paper{fill:#14171a}.life{stroke:#4a525b}.band{fill:#4a1f1c}.arrow{stroke:#e4e7ea}\n.dot,.tip{fill:#e4e7ea}.tip{fill:context-stroke}.own{fill:#14171a;stroke:#e4e7ea}.kin text{fill:#8ab8ff}.kin .dot{fill:#8ab8ff}.kin .own,.kin path{stroke:#8ab8ff}.fault text{fill:#ff8a80}.fault circle{stroke:#ff8a80;fill:#ff8a80}.fault path{stroke:#ff8a80}}\n</style>\n"
}

/// The tip of an arrow, and the page.
fn tip() -> &'static str
    ensures { result.now ≡ tip }
{
    "<defs><marker id='tip' viewBox='0 0 8 8' refX='11' refY='4' markerWidth='8' markerHeight='8' orient='auto'><path class='tip' d='M0,0L8,4L0,8z'/></marker></defs>\n<rect class='paper' width='100%' height='100%'/>\n"
}

/// What each picture begins with.
#[derive(Clone, Copy)]
pub struct Style;

impl Display for Style {
    ghost output = { λ _. Some style };

    fn fmt<W: fmt::Write>(&self, f: &mut Formatter<W>) -> fmt::Result {
        let (letters, strokes, marks) = (letters(), strokes(), marks());
        let (dark, tip) = (dark(), tip());
        write!(f, "{letters}{strokes}{marks}{dark}{tip}")
    }
}
