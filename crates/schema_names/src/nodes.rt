//! Interfaces among the nodes of a schema, and their methods.

ghost use Rattle.std.specs.Prelude.{◌≡◌, ◌<◌, ℕ, drop, length};
ghost use Rattle.cap_reader.specs.Places.{elements_at, list_len, sections_at, text_at};
ghost use Rattle.schema_names.specs.Reading.{run_schema};
ghost use Rattle.schema_names.specs.Glue.{RunsSchemaInMemory, elements_listed, optional};
ghost use Rattle.schema_names.specs.Names.{is_name_letter, named, name_behind as name_in_tree, method_in, methods_in, interface_in, node_in, each_node, nodes_in};

use crate::interface::{Methods, SchemaInterface};
use crate::name_list::SchemaNames;
use crate::schema_error::SchemaError;
use crate::schema_layouts::{
    INTERFACE_METHODS, METHOD_NAME, NODE_DISPLAY_NAME, NODE_ID, NODE_PREFIX_LENGTH, NODE_TAG,
};
use crate::schema_name::SchemaName;
use crate::schema_structs::{element_in, list_in, text_in};
use cap_frame::Frame;
use cap_reader::{Limits, ListAt, StructAt, TextAt, u16_at, u32_at, u64_at};
use std::alloc::Global;

/// `Node`'s union at an interface.
const INTERFACE: u16 = 3;

/// Whether a byte stands in a name: printable ASCII without the space.
fn is_letter(byte: u8) -> bool
    ensures { result ≡ is_name_letter byte }
{
    b'!' <= byte && byte <= b'~'
}

/// How many bytes a text of a frame has.
fn length_of(frame: &Frame, text: &TextAt) -> u32
    ensures { result ≡ length (text_at frame.now text.now) }
{
    text.len()
}

/// The name that a text has behind so many bytes.
#[tactic(auto, unfolding(crate::specs::Names::named, cap_reader::specs::Reading::pay_for))]
fn copied(
    alloc: Global,
    frame: &Frame,
    text: &TextAt,
    prefix: u32,
) -> Result<SchemaName, SchemaError>
    ensures { (words : ℕ) → RunsSchemaInMemory (λ name. name) result words
        (run_schema (named (drop prefix (text_at frame.now text.now))) words) }
{
    let whole = length_of(frame, text);
    if whole <= prefix {
        return Err(SchemaError::BadName);
    }
    let len = whole - prefix;
    let mut name = String::new(alloc);
    for i in 0..len {
        let byte = text.byte(frame, prefix + i);
        if !is_letter(byte) {
            return Err(SchemaError::BadName);
        }
        name.push(byte as char)?;
    }
    Ok(SchemaName::new(name))
}

/// The name at a pointer of a struct, behind so many bytes of its text.
#[tactic(auto, using(crate::proofs::Running::run_then), unfolding(crate::specs::Names::name_behind, crate::specs::Names::named, cap_reader::specs::Reading::pay_for, cap_reader::specs::Reading::and_then))]
fn name_in(
    alloc: Global,
    frame: &Frame,
    place: &StructAt,
    n: u16,
    prefix: u32,
    limits: &mut Limits,
) -> Result<SchemaName, SchemaError>
    ensures { RunsSchemaInMemory (λ name. name) result limits.new.words
        (run_schema (name_in_tree prefix ((sections_at frame.now place.now).child n)) limits.old.words) }
{
    match text_in(frame, place, n, limits)? {
        Some(text) => copied(alloc, frame, &text, prefix),
        None => Err(SchemaError::BadName),
    }
}

/// The name of a method.
#[tactic(auto, using(crate::proofs::Running::run_then), unfolding(crate::specs::Names::method_in, cap_reader::specs::Reading::pay_for, cap_reader::specs::Reading::and_then))]
fn method(
    alloc: Global,
    frame: &Frame,
    list: &ListAt,
    i: u32,
    limits: &mut Limits,
) -> Result<SchemaName, SchemaError>
    requires { i < list_len list.now }
    ensures { RunsSchemaInMemory (λ name. name) result limits.new.words
        (run_schema (method_in ((elements_at frame.now list.now).element i)) limits.old.words) }
{
    let method = element_in(frame, list, i, limits)?;
    name_in(alloc, frame, &method, METHOD_NAME, 0, limits)
}

/// The names of a list's methods.
#[tactic(auto, using(crate::proofs::Loops::no_front), unfolding(crate::specs::Names::methods_in))]
fn listed_methods(
    alloc: Global,
    frame: &Frame,
    list: &ListAt,
    limits: &mut Limits,
) -> Result<Methods, SchemaError>
    ensures { RunsSchemaInMemory (λ methods. methods) result limits.new.words
        (run_schema (methods_in (elements_at frame.now list.now)) limits.old.words) }
{
    let mut names = Vec::new(alloc);
    for i in 0..list.len() {
        names.push(method(alloc, frame, list, i, limits)?)?;
    }
    Ok(Methods::new(names))
}

/// The names of the methods of a list that was looked for.
#[tactic(auto, unfolding(crate::specs::Names::methods_in, cap_reader::specs::Reading::each, cap_reader::specs::Reading::pay_for))]
fn methods(
    alloc: Global,
    frame: &Frame,
    list: &Option<ListAt>,
    limits: &mut Limits,
) -> Result<Methods, SchemaError>
    ensures { RunsSchemaInMemory (λ methods. methods) result limits.new.words
        (run_schema (methods_in (elements_listed frame.now list.now)) limits.old.words) }
{
    match list {
        Some(list) => listed_methods(alloc, frame, list, limits),
        None => Ok(Methods::new(Vec::new(alloc))),
    }
}

/// The interface of a node.
#[tactic(auto, using(crate::proofs::Running::run_then), unfolding(crate::specs::Names::interface_in, cap_reader::specs::Reading::pay_for, cap_reader::specs::Reading::and_then))]
fn interface(
    alloc: Global,
    frame: &Frame,
    node: &StructAt,
    limits: &mut Limits,
) -> Result<SchemaInterface, SchemaError>
    ensures { RunsSchemaInMemory (λ interface. interface) result limits.new.words
        (run_schema (interface_in (sections_at frame.now node.now)) limits.old.words) }
{
    let prefix = u32_at(frame, node, NODE_PREFIX_LENGTH);
    let name = name_in(alloc, frame, node, NODE_DISPLAY_NAME, prefix, limits)?;
    let list = list_in(frame, node, INTERFACE_METHODS, limits)?;
    let methods = methods(alloc, frame, &list, limits)?;
    let id = u64_at(frame, node, NODE_ID);
    Ok(SchemaInterface { id, name, methods })
}

/// The interface of an element of the nodes, None where it is another node.
#[tactic(auto, using(crate::proofs::Running::run_then), unfolding(crate::specs::Names::node_in, cap_reader::specs::Reading::pay_for, cap_reader::specs::Reading::and_then))]
fn node(
    alloc: Global,
    frame: &Frame,
    list: &ListAt,
    i: u32,
    limits: &mut Limits,
) -> Result<Option<SchemaInterface>, SchemaError>
    requires { i < list_len list.now }
    ensures { RunsSchemaInMemory optional result limits.new.words
        (run_schema (node_in ((elements_at frame.now list.now).element i)) limits.old.words) }
{
    let node = element_in(frame, list, i, limits)?;
    if u16_at(frame, &node, NODE_TAG) != INTERFACE {
        return Ok(None);
    }
    Ok(Some(interface(alloc, frame, &node, limits)?))
}

/// The interfaces among the nodes of a list, which has one at least.
#[tactic(auto, using(crate::proofs::Loops::no_front), unfolding(crate::specs::Names::each_node))]
fn listed_nodes(
    alloc: Global,
    frame: &Frame,
    list: &ListAt,
    limits: &mut Limits,
) -> Result<SchemaNames, SchemaError>
    ensures { RunsSchemaInMemory (λ names. names) result limits.new.words
        (run_schema (each_node (elements_at frame.now list.now)) limits.old.words) }
{
    let mut interfaces = Vec::new(alloc);
    for i in 0..list.len() {
        if let Some(interface) = node(alloc, frame, list, i, limits)? {
            interfaces.push(interface)?;
        }
    }
    Ok(SchemaNames::new(interfaces))
}

/// The interfaces among the nodes of a list that was looked for.
#[tactic(auto, unfolding(crate::specs::Names::nodes_in, cap_reader::specs::Reading::pay_for))]
pub fn nodes(
    alloc: Global,
    frame: &Frame,
    list: &Option<ListAt>,
    limits: &mut Limits,
) -> Result<SchemaNames, SchemaError>
    ensures { RunsSchemaInMemory (λ names. names) result limits.new.words
        (run_schema (nodes_in (elements_listed frame.now list.now)) limits.old.words) }
{
    match list {
        Some(list) if list.len() != 0 => listed_nodes(alloc, frame, list, limits),
        _ => Err(SchemaError::NoNodes),
    }
}
