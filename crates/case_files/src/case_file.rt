//! Case files.

ghost use Rattle.std.specs.Prelude.{◌≡◌, option_map, map, string_bytes};
ghost use Rattle.std.specs.BTreeMap.{keys};
ghost use Rattle.std.specs.List.{list_all};
ghost use Rattle.serde_json.specs.Find.{as_str};
ghost use Rattle.serde_json.specs.View.{view};
ghost use Rattle.case_files.specs.CaseFile.{each_item, is_case_key, link_of, listed_in, number_of_data, order_of_data};
ghost use Rattle.case_files.specs.CaseReading.{IsListedCase, listed_by, seen_by};
ghost use Rattle.case_files.specs.Glue.{TellsInMemory};

use crate::case_fault::CaseFault;
use case_book::Link;
use serde_json::{Map, Value};
use std::alloc::Global;

/// What a case file says.
#[derive(Drop)]
pub struct CaseFile {
    /// The names of the logs.
    pub logs: Vec<String>,
    /// The links between the vats of the logs.
    pub links: Vec<Link>,
    /// The name of the order, if it has one.
    pub order: Option<String>,
}

/// The number that a value is, below 2^32.
fn number_of(value: &Value) -> Option<u32>
    ensures { result ≡ number_of_data (view value.now) }
{
    u32::try_from(value.as_u64()?).ok()
}

/// The link that a value is: a list of the connection and the vats at its ends.
fn link_of(value: &Value) -> Option<Link>
    ensures { result ≡ link_of (view value.now) }
{
    let [connection, a, b] = value.as_array()?.as_slice() else {
        return None;
    };
    Some(Link {
        connection: number_of(connection)?,
        a: number_of(a)?,
        b: number_of(b)?,
    })
}

/// The texts that a value lists.
fn names_in(alloc: Global, value: &Value) -> Result<Vec<String>, CaseFault>
    ensures { TellsInMemory (λ names. map string_bytes names.items) result
        (each_item as_str (view value.now)) }
{
    let mut names = Vec::new(alloc);
    for item in value.as_array().ok_or(CaseFault::Form)? {
        let name = item.as_str().ok_or(CaseFault::Form)?;
        names.push(String::from_str(alloc, name)?)?;
    }
    Ok(names)
}

/// The links that a value lists.
fn links_in(alloc: Global, value: &Value) -> Result<Vec<Link>, CaseFault>
    ensures { TellsInMemory (λ links. links.items) result (each_item link_of (view value.now)) }
{
    let mut links = Vec::new(alloc);
    for item in value.as_array().ok_or(CaseFault::Form)? {
        links.push(link_of(item).ok_or(CaseFault::Form)?)?;
    }
    Ok(links)
}

/// The name of the order, where there is none or it is a text.
fn order_in(alloc: Global, value: Option<&Value>) -> Result<Option<String>, CaseFault>
    ensures { TellsInMemory (λ name. option_map string_bytes name) result
        (order_of_data (option_map (λ v. view v.now) value.entry)) }
{
    match value {
        None => Ok(None),
        Some(value) => {
            let name = value.as_str().ok_or(CaseFault::Form)?;
            Ok(Some(String::from_str(alloc, name)?))
        }
    }
}

/// Whether a case file may have this key.
fn is_known(key: &str) -> bool
    ensures { result ≡ is_case_key key.now }
{
    key == "logs" || key == "links" || key == "order"
}

/// Whether an object has no key but those of a case file.
fn are_known(members: &Map<String, Value>) -> bool
    ensures { result ≡ list_all (λ key. is_case_key (string_bytes key)) (keys members.now) }
{
    members.keys().all(|key| is_known(key.as_str()))
}

/// What a JSON value says as a case file.
fn case_file_in(alloc: Global, value: &Value) -> Result<CaseFile, CaseFault>
    ensures { TellsInMemory listed_by result (listed_in (view value.now)) }
{
    if !are_known(value.as_object().ok_or(CaseFault::Form)?) {
        return Err(CaseFault::Form);
    }
    let logs = value.get("logs").ok_or(CaseFault::Form)?;
    let links = value.get("links").ok_or(CaseFault::Form)?;
    Ok(CaseFile {
        logs: names_in(alloc, logs)?,
        links: links_in(alloc, links)?,
        order: order_in(alloc, value.get("order"))?,
    })
}

/// What bytes say as a case file: the JSON object with `logs`, a list of file names, `links`, a list of
/// `[connection, vat, vat]`, and, if wanted, `order`, a file name. Any other form is refused, one with another key
/// among them. It is judged on the value that `serde_json` reads, in which a key that comes again has its last value.
///
/// # Errors
///
/// `Form`, or out of memory.
pub fn case_file_of(alloc: Global, bytes: &[u8]) -> Result<CaseFile, CaseFault>
    ensures { IsListedCase (seen_by listed_by result) bytes.now }
{
    match Value::from_slice(alloc, bytes) {
        Ok(value) => case_file_in(alloc, &value),
        Err(e) if e.is_memory() => Err(CaseFault::OutOfMemory),
        Err(_) => Err(CaseFault::Form),
    }
}
