//! What stands at pointers, with the faults of a schema.

ghost use Rattle.std.specs.Prelude.{◌<◌};
ghost use Rattle.std.specs.Option.{option_map};
ghost use Rattle.cap_reader.specs.Tree.{root_tree};
ghost use Rattle.cap_reader.specs.Places.{elements_at, list_len, sections_at, text_at};
ghost use Rattle.schema_names.specs.Reading.{run_schema, schema_struct_in, schema_list_in as list_in_tree, optional_text_in};
ghost use Rattle.schema_names.specs.Glue.{RunsSchemaInMemory, elements_listed};

use crate::schema_error::SchemaError;
use cap_frame::Frame;
use cap_reader::{Limits, ListAt, StructAt, TextAt, list_field, root, text_field};

/// The root struct of a frame.
pub fn root_struct(frame: &Frame, limits: &mut Limits) -> Result<StructAt, SchemaError>
    ensures { RunsSchemaInMemory (sections_at frame.now) result limits.new.words
        (run_schema (schema_struct_in (root_tree limits.old.depth frame.now)) limits.old.words) }
{
    Ok(root(frame, limits)?)
}

/// The struct of an element of a list, counted from 0.
pub fn element_in(
    frame: &Frame,
    list: &ListAt,
    i: u32,
    limits: &mut Limits,
) -> Result<StructAt, SchemaError>
    requires { i < list_len list.now }
    ensures { RunsSchemaInMemory (sections_at frame.now) result limits.new.words
        (run_schema (schema_struct_in ((elements_at frame.now list.now).element i)) limits.old.words) }
{
    Ok(list.element(i, limits)?)
}

/// The list of structs at a pointer of a struct, None where it is null.
pub fn list_in(
    frame: &Frame,
    place: &StructAt,
    n: u16,
    limits: &mut Limits,
) -> Result<Option<ListAt>, SchemaError>
    ensures { RunsSchemaInMemory (elements_listed frame.now) result limits.new.words
        (run_schema (list_in_tree ((sections_at frame.now place.now).child n)) limits.old.words) }
{
    Ok(list_field(frame, place, n, limits)?)
}

/// The text at a pointer of a struct, None where it is null.
pub fn text_in(
    frame: &Frame,
    place: &StructAt,
    n: u16,
    limits: &mut Limits,
) -> Result<Option<TextAt>, SchemaError>
    ensures { RunsSchemaInMemory (λ found. option_map (text_at frame.now) found)
        result limits.new.words
        (run_schema (optional_text_in ((sections_at frame.now place.now).child n)) limits.old.words) }
{
    Ok(text_field(frame, place, n, limits)?)
}
