//! The table of what came in: imports, and what is this vat's own.

ghost use Rattle.std.specs.Prelude.{◌≡◌, ◌==◌, ℕ, List, None, false, map, option_map, is_some, IfOk, OnOk, OnErr, if◌then◌else◌};
ghost use Rattle.std.specs.List.{list_any};
ghost use Rattle.std.specs.Option.{option_copied, option_map_or};
ghost use Rattle.decoded_records.specs.Lives.{descriptors};
ghost use Rattle.vat_view.specs.Connections.{names_back, brings_back};
ghost use Rattle.vat_view.specs.Glue.ArrivalTables.{hosted_in, has_back, may_bring_back, arriving_over, field_back, back_among, back_in, brought_over, connection_in, hosted_by, back_by, arrival_at, back_at};

use cap_frame::Path;
use decoded_records::{DecodedRecord, descriptors};
use rising_table::RisingTable;
use rpc_view::{Descriptor, Outcome, Payload, Resolution, RpcMessage};
use std::alloc::{AllocError, Global};
use std::slice;

/// What a received Return or Resolve says is its receiver's.
#[derive(Drop)]
enum Back {
    /// All that it turns.
    Whole,
    /// A result where that stands beside its path. Of a path that stands twice the first counts.
    Fields(Vec<(bool, Path)>),
}

/// What a received message brought over a connection, where something of it is its receiver's: which descriptors are
/// senderHosted, and what is the receiver's.
#[derive(Drop)]
struct Came {
    connection: u32,
    hosted: Vec<Option<bool>>,
    back: Back,
}

/// The imports that a received message brought, each by its place: whether the descriptor there is senderHosted, where it
/// is that or senderPromise; and what it brought back. Most messages have one descriptor at most, which takes no memory of
/// its own.
#[derive(Drop)]
enum Brought {
    /// Over this connection, by the only descriptor.
    One(u32, Option<bool>),
    /// Over this connection, by several.
    Several(u32, Box<Vec<Option<bool>>>),
    /// Something came back with it.
    Mixed(Box<Came>),
}

/// Whether a descriptor is senderHosted, where it is that or senderPromise.
fn hosted_in(descriptor: &Descriptor) -> Option<bool>
    ensures { result ≡ hosted_in descriptor.now }
{
    match descriptor {
        Descriptor::SenderHosted(_) => Some(true),
        Descriptor::SenderPromise(_) => Some(false),
        _ => None,
    }
}

/// Which of these descriptors are senderHosted.
#[inline]
fn all_hosted(alloc: Global, described: &[Descriptor]) -> Result<Vec<Option<bool>>, AllocError>
    ensures { IfOk result (λ hosted. hosted.items ≡ map hosted_in described.now) }
{
    described.iter().map(hosted_in).collect(alloc)
}

/// Whether one of these descriptors is a senderHosted or senderPromise.
fn has_import(described: &[Descriptor]) -> bool
    ensures { result ≡ list_any (λ d. is_some (hosted_in d)) described.now }
{
    described
        .iter()
        .any(|descriptor| hosted_in(descriptor).is_some())
}

/// Whether a descriptor names what is its receiver's.
fn names_back(descriptor: Option<&Descriptor>) -> bool
    ensures { result ≡ names_back (option_copied descriptor.entry) }
{
    matches!(
        descriptor,
        Some(Descriptor::ReceiverHosted(_) | Descriptor::ReceiverAnswer(_, _))
    )
}

/// Whether one of these descriptors names what is its receiver's.
fn has_back(described: &[Descriptor]) -> bool
    ensures { result ≡ has_back described.now }
{
    described
        .iter()
        .any(|descriptor| names_back(Some(descriptor)))
}

/// Whether a record may bring something back: whether a Return or Resolve that came in has a descriptor of its receiver's,
/// or takes the results of another question.
fn may_bring_back(event: &DecodedRecord) -> bool
    ensures { result ≡ may_bring_back event.now }
{
    let DecodedRecord::Wire {
        sent: false,
        message,
        ..
    } = event
    else {
        return false;
    };
    match message {
        RpcMessage::Return { outcome, .. } => match outcome {
            Outcome::Results(payload) => has_back(payload.descriptors.as_slice()),
            Outcome::TakeFrom(_) => true,
            _ => false,
        },
        RpcMessage::Resolve {
            resolution: Resolution::Cap(descriptor),
            ..
        } => names_back(Some(descriptor)),
        _ => false,
    }
}

/// The connection over which a record brings imports or something back, if it does.
#[inline(always)]
pub(crate) fn arriving_over(event: &DecodedRecord) -> Option<u32>
    ensures { result ≡ arriving_over event.now }
{
    let DecodedRecord::Wire {
        sent: false,
        connection,
        ..
    } = event
    else {
        return None;
    };
    if has_import(descriptors(event)) || may_bring_back(event) {
        Some(*connection)
    } else {
        None
    }
}

/// Which results are their receiver's, each with its path.
fn fields_back(alloc: Global, payload: &Payload) -> Result<Vec<(bool, Path)>, AllocError>
    ensures { IfOk result (λ fields. fields.items
        ≡ map (field_back payload.now.descriptors) payload.now.fields) }
{
    let all = payload.descriptors.as_slice();
    let mut fields = Vec::new(alloc);
    for (path, place) in payload.fields.as_slice() {
        fields.push((names_back(all.get(*place as usize)), path.copy()?))?;
    }
    Ok(fields)
}

/// What a record brings back.
#[tactic(auto, using(crate::proofs::Importing::fields_kept))]
fn back_of(alloc: Global, event: &DecodedRecord) -> Result<Back, AllocError>
    ensures { IfOk result (λ back. (path : List ℕ) → back_in back path ≡ brings_back path event.now) }
{
    let DecodedRecord::Wire {
        sent: false,
        message,
        ..
    } = event
    else {
        return Ok(Back::Fields(Vec::new(alloc)));
    };
    match message {
        RpcMessage::Return {
            outcome: Outcome::Results(payload),
            ..
        } => Ok(Back::Fields(fields_back(alloc, payload)?)),
        RpcMessage::Return {
            outcome: Outcome::TakeFrom(_),
            ..
        } => Ok(Back::Whole),
        RpcMessage::Resolve {
            resolution: Resolution::Cap(descriptor),
            ..
        } if names_back(Some(descriptor)) => Ok(Back::Whole),
        _ => Ok(Back::Fields(Vec::new(alloc))),
    }
}

/// Whether what stands beside a path is the receiver's, the first time that the path stands there.
fn back_among(fields: &[(bool, Path)], path: &[u16]) -> bool
    ensures { result ≡ back_among path.now fields.now }
{
    for (back, at) in fields {
        if at.as_slice() == path {
            return *back;
        }
    }
    false
}

impl Back {
    /// Whether what stands at a path is the receiver's.
    fn has(&self, path: &[u16]) -> bool
        ensures { result ≡ back_in self.now path.now }
    {
        match self {
            Back::Whole => true,
            Back::Fields(fields) => back_among(fields.as_slice(), path),
        }
    }
}

impl Brought {
    /// What a record brings that brings nothing back, by these descriptors.
    fn of_imports(
        alloc: Global,
        connection: u32,
        described: &[Descriptor],
    ) -> Result<Brought, AllocError>
        ensures connection { IfOk result (λ brought. connection_in brought ≡ connection) }
        ensures hosted { IfOk result (λ brought. hosted_by brought ≡ map hosted_in described.now) }
        ensures back { IfOk result (λ brought. (path : List ℕ) → back_by brought path ≡ false) }
    {
        if let [descriptor] = described {
            return Ok(Brought::One(connection, hosted_in(descriptor)));
        }
        let hosted = all_hosted(alloc, described)?;
        Ok(Brought::Several(connection, Box::new(alloc, hosted)?))
    }

    /// What a record brings over a connection.
    #[tactic(auto, using(crate::proofs::Importing::brings_none))]
    fn new(alloc: Global, connection: u32, event: &DecodedRecord) -> Result<Brought, AllocError>
        ensures connection { IfOk result (λ brought. connection_in brought ≡ connection) }
        ensures hosted { IfOk result
            (λ brought. hosted_by brought ≡ map hosted_in (descriptors event.now)) }
        ensures back { IfOk result
            (λ brought. (path : List ℕ) → back_by brought path ≡ brings_back path event.now) }
    {
        let described = descriptors(event);
        if !may_bring_back(event) {
            return Brought::of_imports(alloc, connection, described);
        }
        let came = Came {
            connection,
            hosted: all_hosted(alloc, described)?,
            back: back_of(alloc, event)?,
        };
        Ok(Brought::Mixed(Box::new(alloc, came)?))
    }

    /// The connection.
    fn connection(&self) -> u32
        ensures { result ≡ connection_in self.now }
    {
        match self {
            Brought::One(connection, _) | Brought::Several(connection, _) => *connection,
            Brought::Mixed(came) => came.connection,
        }
    }

    /// Which descriptors are senderHosted, by place.
    fn hosted(&self) -> &[Option<bool>]
        ensures { result.now ≡ hosted_by self.now }
    {
        match self {
            Brought::One(_, hosted) => slice::from_ref(hosted),
            Brought::Several(_, hosted) => hosted.as_slice(),
            Brought::Mixed(came) => came.hosted.as_slice(),
        }
    }

    /// Whether what stands at a path is this vat's.
    fn has_back(&self, path: &[u16]) -> bool
        ensures { result ≡ back_by self.now path.now }
    {
        match self {
            Brought::Mixed(came) => came.back.has(path),
            _ => false,
        }
    }
}

/// What each received message brought that brings imports or something back, by its number in the log.
#[derive(Drop)]
pub(crate) struct Arrivals {
    entries: RisingTable<Brought>,
}

impl Arrivals {
    /// Before any message.
    pub(crate) fn new(alloc: Global) -> Arrivals
        ensures imports { (number place : ℕ) → arrival_at result number place ≡ None }
        ensures back { (number : ℕ) (path : List ℕ) → back_at result number path ≡ false }
    {
        Arrivals {
            entries: RisingTable::new(alloc),
        }
    }

    /// Whether the import at this place of the record of this number is senderHosted, with its connection, where it came
    /// in.
    #[inline]
    fn at(&self, number: usize, place: usize) -> Option<(u32, bool)>
        ensures { result
            ≡ option_map (λ a. (a.connection, a.hosted)) (arrival_at self.now number place) }
    {
        let brought = self.entries.get(number as u64)?;
        match brought.hosted().get(place) {
            Some(Some(hosted)) => Some((brought.connection(), *hosted)),
            _ => None,
        }
    }

    /// The connection over which the import at this place of the record of this number came in, if it did.
    pub(crate) fn over(&self, number: usize, place: usize) -> Option<u32>
        ensures { result ≡ option_map (λ a. a.connection) (arrival_at self.now number place) }
    {
        match self.at(number, place) {
            Some((connection, _)) => Some(connection),
            None => None,
        }
    }

    /// Whether the import at this place of the record of this number came in as senderHosted.
    pub(crate) fn is_hosted(&self, number: usize, place: usize) -> bool
        ensures { result ≡ option_map_or (λ a. a.hosted) (arrival_at self.now number place) false }
    {
        match self.at(number, place) {
            Some((_, hosted)) => hosted,
            None => false,
        }
    }

    /// Whether the record of this number brought back what it turned at this path.
    pub(crate) fn brings_back(&self, number: usize, path: &[u16]) -> bool
        ensures { result ≡ back_at self.now number path.now }
    {
        match self.entries.get(number as u64) {
            Some(brought) => brought.has_back(path),
            None => false,
        }
    }

    /// The record of this number brought this over a connection. Where memory is refused, nothing changes.
    pub(crate) fn put(
        &mut self,
        alloc: Global,
        number: usize,
        connection: u32,
        event: &DecodedRecord,
    ) -> Result<(), AllocError>
        ensures imports { OnOk result
            ((n place : ℕ) → arrival_at self.new n place
            ≡ (if number == n then brought_over connection (map hosted_in (descriptors event.now)) place
            else arrival_at self.old n place)) }
        ensures back { OnOk result
            ((n : ℕ) (path : List ℕ) → back_at self.new n path
            ≡ (if number == n then brings_back path event.now else back_at self.old n path)) }
        ensures err { OnErr result (self.new ≡ self.old) }
    {
        let brought = Brought::new(alloc, connection, event)?;
        self.entries.put(number as u64, brought)
    }

    /// The record of this number brought nothing.
    pub(crate) fn forget(&mut self, number: usize)
        ensures imports { (n place : ℕ) → arrival_at self.new n place
            ≡ (if number == n then None else arrival_at self.old n place) }
        ensures back { (n : ℕ) (path : List ℕ) → back_at self.new n path
            ≡ (if number == n then false else back_at self.old n path) }
    {
        self.entries.remove(number as u64);
    }
}
