//! Case files that are written.

ghost use Rattle.std.specs.Prelude.{◌≡◌, IfOk, None, Some, map};
ghost use Rattle.serde_json.specs.Find.{as_str};
ghost use Rattle.serde_json.specs.View.{view};
ghost use Rattle.case_files.specs.CaseFile.{IsCaseFile, each_item, link_case, link_of};
ghost use Rattle.case_files.specs.Glue.{IsShallow, SaysCase};

use bytes::Bytes;
use case_book::Link;
use serde_json::{Value, json};
use std::alloc::{AllocError, Global};
use std::convert::AsStr;

/// A list of texts, as a JSON value.
fn names_value<N: AsStr>(alloc: Global, names: &[N]) -> Result<Value, AllocError>
    ensures says { IfOk result
        (λ value. each_item as_str (view value) ≡ Some (map N.text names.now)) }
    ensures shallow { IfOk result (λ value. IsShallow 1 (view value)) }
{
    let mut list = Vec::new(alloc);
    for name in names {
        list.push(Value::String(String::from_str(alloc, name.as_str())?))?;
    }
    Ok(Value::Array(list))
}

/// A link, as a JSON value: the connection and the vats at its ends.
fn link_value(alloc: Global, link: Link) -> Result<Value, AllocError>
    ensures says { IfOk result (λ value. link_of (view value) ≡ Some link) }
    ensures shallow { IfOk result (λ value. IsShallow 1 (view value)) }
{
    let mut list = Vec::new(alloc);
    list.push(Value::from(link.connection))?;
    list.push(Value::from(link.a))?;
    list.push(Value::from(link.b))?;
    Ok(Value::Array(list))
}

/// A list of links, as a JSON value.
fn links_value(alloc: Global, links: &[Link]) -> Result<Value, AllocError>
    ensures says { IfOk result (λ value. each_item link_of (view value) ≡ Some links.now) }
    ensures shallow { IfOk result (λ value. IsShallow 2 (view value)) }
{
    let mut list = Vec::new(alloc);
    for place in 0..links.len() {
        let link = links[place];
        list.push(link_value(alloc, link)?)?;
    }
    Ok(Value::Array(list))
}

/// The case file of logs, by their names, and links, as a JSON value.
fn case_value<N: AsStr>(alloc: Global, names: &[N], links: &[Link]) -> Result<Value, AllocError>
    ensures { IfOk result (λ value. SaysCase (view value) (map N.text names.now) links.now) }
{
    let logs = names_value(alloc, names)?;
    let links = links_value(alloc, links)?;
    json!(in alloc; {"logs": logs, "links": links})
}

/// The bytes of a case file that names these logs, by their paths from the working directory, and these links, and no order.
///
/// # Errors
///
/// Out of memory.
pub fn written_case<N: AsStr>(
    alloc: Global,
    names: &[N],
    links: &[Link],
) -> Result<Bytes, AllocError>
    ensures { IfOk result (λ bytes. IsCaseFile bytes (record {
      logs = map N.text names.now;
      links = links.now;
      order = None;
    })) }
{
    let text = case_value(alloc, names, links)?.to_string(alloc)?;
    Ok(Bytes::from_string(text)?)
}

/// The bytes of a case file that names two logs, by their paths from the working directory: those of vats 1 and 2, which are
/// the ends of connection 0.
///
/// # Errors
///
/// Out of memory.
pub fn link_case(alloc: Global, first: &str, second: &str) -> Result<Bytes, AllocError>
    ensures { IfOk result (λ bytes. IsCaseFile bytes (link_case first.now second.now)) }
{
    let link = Link {
        connection: 0,
        a: 1,
        b: 2,
    };
    written_case(alloc, &[first, second], &[link])
}
