//! Reading schemas.

ghost use Rattle.cap_reader.specs.Tree.{root_tree};
ghost use Rattle.schema_names.specs.Reading.{GivesSchemaInMemory, run_schema};
ghost use Rattle.schema_names.specs.Glue.{RunsSchemaInMemory};
ghost use Rattle.schema_names.specs.Names.{request_names, names_of_bytes};

use crate::name_list::SchemaNames;
use crate::nodes::nodes;
use crate::schema_error::SchemaError;
use crate::schema_layouts::REQUEST_NODES;
use crate::schema_structs::{list_in, root_struct};
use bytes::Bytes;
use cap_frame::Frame;
use cap_reader::Limits;
use std::alloc::Global;

/// The names of the schema at the root pointer of a frame.
#[tactic(auto, using(crate::proofs::Running::run_then), unfolding(crate::specs::Names::request_names, cap_reader::specs::Reading::pay_for, cap_reader::specs::Reading::and_then))]
fn names(alloc: Global, frame: &Frame, limits: &mut Limits) -> Result<SchemaNames, SchemaError>
    ensures { RunsSchemaInMemory (λ names. names) result limits.new.words
        (run_schema (request_names (root_tree limits.old.depth frame.now)) limits.old.words) }
{
    let request = root_struct(frame, limits)?;
    let list = list_in(frame, &request, REQUEST_NODES, limits)?;
    nodes(alloc, frame, &list, limits)
}

/// The names of a compiled schema's bytes, within limits: of each interface among its nodes the number, the name without
/// that of its scope, and the names of its methods by their numbers (schema.capnp, `CodeGeneratorRequest`, which
/// `capnp compile -o-` writes).
///
/// # Errors
///
/// `Frame` where the bytes are no frame; else `Read` where a pointer can't be followed within the limits, `NoNodes`, or
/// `BadName`, the first in the order of reading: each node, of an interface its name, then that of each method.
/// `OutOfMemory` where a growth is refused.
pub fn read_names(alloc: Global, bytes: Bytes, limits: Limits) -> Result<SchemaNames, SchemaError>
    ensures { GivesSchemaInMemory result (names_of_bytes bytes limits) }
{
    let frame = Frame::read(bytes.as_slice())?;
    let mut limits = limits;
    names(alloc, &frame, &mut limits)
}
