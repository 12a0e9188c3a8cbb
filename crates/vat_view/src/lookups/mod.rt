//! What the tables answer of a record that comes next.

pub(crate) mod headings;
pub(crate) mod meaning;
pub(crate) mod settling;
pub(crate) mod table_answers;
pub(crate) mod turning;
