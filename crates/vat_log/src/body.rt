//! What a record says.

ghost use Rattle.std.specs.Prelude.{◌≡◌, ◌∷◌, [], IfOk};

use crate::passage::Passage;
use bytes::Bytes;
use cap_frame::Path;
use std::alloc::AllocError;
use std::fmt::{self, Debug, Formatter, Write};
use std::marker::Model;
use std::slice;

/// References as they are kept: a single one, as most frames have, takes no memory of its own.
#[derive(Drop)]
enum KeptReferences {
    /// A single one.
    One(u64),
    /// None or several.
    Several(Vec<u64>),
}

/// References noted beside a frame, in the order of the descriptors that aren't none (docs/FORMATS.md).
pub struct References {
    kept: KeptReferences,
}

impl Drop for References {
    fn drop(self) {
        let Self { kept: _ } = self;
    }
}

impl Model for References {
    ghost use Rattle.std.specs.Prelude.{List, ℕ};
    ghost use Rattle.vat_log.specs.Glue.{references_of};

    ghost Value = { List ℕ };

    ghost view = { λ references. references_of references.kept };
}

impl Debug for References {
    fn fmt<W: Write>(&self, f: &mut Formatter<W>) -> fmt::Result {
        f.debug_struct("References")
            .field("items", &self.as_slice())
            .finish()
    }
}

impl References {
    /// The list of these. It takes no memory.
    pub fn new(items: Vec<u64>) -> References
        ensures { result ≡ items.items }
    {
        if let [reference] = items.as_slice() {
            return References::one(*reference);
        }
        References {
            kept: KeptReferences::Several(items),
        }
    }

    /// This one alone. It takes no memory.
    pub(crate) fn one(reference: u64) -> References
        ensures { result ≡ reference ∷ [] }
    {
        References {
            kept: KeptReferences::One(reference),
        }
    }

    /// The references, in their order.
    pub fn as_slice(&self) -> &[u64]
        ensures { result.now ≡ self.now }
    {
        match &self.kept {
            KeptReferences::One(reference) => slice::from_ref(reference),
            KeptReferences::Several(items) => items.as_slice(),
        }
    }

    /// A second list of the same references. The only error is that memory ran out.
    pub fn copy(&self) -> Result<References, AllocError>
        ensures { IfOk result (λ copied. copied ≡ self.now) }
    {
        let kept = match &self.kept {
            KeptReferences::One(reference) => KeptReferences::One(*reference),
            KeptReferences::Several(items) => KeptReferences::Several(items.clone()?),
        };
        Ok(References { kept })
    }
}

/// Results as they are kept: a single one, as most calls have, takes no memory of its own.
#[derive(Drop)]
enum KeptResults {
    /// A single one.
    One((u64, Path)),
    /// None or several.
    Several(Vec<(u64, Path)>),
}

/// The results of a call: references, each with the path at which it stands (docs/FORMATS.md).
pub struct ResultReferences {
    kept: KeptResults,
}

impl Drop for ResultReferences {
    fn drop(self) {
        let Self { kept: _ } = self;
    }
}

impl Model for ResultReferences {
    ghost use Rattle.std.specs.Prelude.{List, ℕ};
    ghost use Rattle.vat_log.specs.Glue.{results_of};

    ghost Value = { List (ℕ × List ℕ) };

    ghost view = { λ results. results_of results.kept };
}

impl Debug for ResultReferences {
    fn fmt<W: Write>(&self, f: &mut Formatter<W>) -> fmt::Result {
        f.debug_struct("ResultReferences")
            .field("items", &self.as_slice())
            .finish()
    }
}

/// A second list of the same results.
fn copied_results(items: &Vec<(u64, Path)>) -> Result<Vec<(u64, Path)>, AllocError>
    ensures { IfOk result (λ copied. copied.items ≡ items.now.items) }
{
    let mut copied = Vec::with_capacity(*items.allocator(), items.len())?;
    for (reference, path) in items {
        copied.push((*reference, path.copy()?))?;
    }
    Ok(copied)
}

impl ResultReferences {
    /// The list of these. It takes no memory.
    pub fn new(mut items: Vec<(u64, Path)>) -> ResultReferences
        ensures { result ≡ items.items }
    {
        if items.len() == 1 {
            if let Some(answered) = items.pop() {
                return ResultReferences::one(answered);
            }
        }
        ResultReferences {
            kept: KeptResults::Several(items),
        }
    }

    /// This one alone. It takes no memory.
    pub(crate) fn one(answered: (u64, Path)) -> ResultReferences
        ensures { result ≡ answered ∷ [] }
    {
        ResultReferences {
            kept: KeptResults::One(answered),
        }
    }

    /// The results, each a reference with its path, in their order.
    pub fn as_slice(&self) -> &[(u64, Path)]
        ensures { result.now ≡ self.now }
    {
        match &self.kept {
            KeptResults::One(answered) => slice::from_ref(answered),
            KeptResults::Several(items) => items.as_slice(),
        }
    }

    /// A second list of the same results. The only error is that memory ran out.
    pub fn copy(&self) -> Result<ResultReferences, AllocError>
        ensures { IfOk result (λ copied. copied ≡ self.now) }
    {
        let kept = match &self.kept {
            KeptResults::One((reference, path)) => KeptResults::One((*reference, path.copy()?)),
            KeptResults::Several(items) => KeptResults::Several(copied_results(items)?),
        };
        Ok(ResultReferences { kept })
    }
}

/// What a record says (docs/FORMATS.md). References and calls are the vat's own numbers.
#[derive(Debug)]
pub enum Body {
    /// The vat hosts an object of its own under a reference.
    Host {
        /// The new reference, which isn't 0.
        reference: u64,
        /// The vat's own number of the object, which may be 0.
        object: u64,
    },
    /// The vat promises a capability of its own under a reference.
    Vow {
        /// The new reference, which isn't 0.
        reference: u64,
    },
    /// The vat's promise under the first reference is kept: it is what the second one stands for.
    Fulfil {
        /// The promise, which isn't 0.
        reference: u64,
        /// What it turned out to be, which isn't 0.
        to: u64,
    },
    /// The vat's promise is broken.
    Break {
        /// The promise, which isn't 0.
        reference: u64,
    },
    /// The vat makes a call through a reference.
    Make {
        /// The new call, which isn't 0.
        call: u64,
        /// Where it goes, which isn't 0.
        reference: u64,
        /// The interface that is called, by its 64-bit id.
        interface: u64,
        /// The method of the interface that is called, counted from 0.
        method: u16,
    },
    /// The vat names the capability at a path in a call's results, which may be still to come.
    Field {
        /// The new reference, which isn't 0.
        reference: u64,
        /// The call, which isn't 0.
        call: u64,
        /// The pointer fields from the root of the results on, each counted from 0.
        path: Path,
    },
    /// The vat gives a call to its own object.
    Deliver {
        /// The call, which isn't 0.
        call: u64,
        /// The vat's own number of the object.
        object: u64,
    },
    /// The results of a call.
    Answer {
        /// The call, which isn't 0.
        call: u64,
        /// The capabilities in its results.
        results: ResultReferences,
    },
    /// A call ends with no results.
    Fault {
        /// The call, which isn't 0.
        call: u64,
    },
    /// A frame went out on a connection.
    Send {
        /// The connection's number, the same in the logs of both ends.
        connection: u32,
        /// The call that a Bootstrap or a Call is; 0 where none is noted.
        call: u64,
        /// The references given away by the capability table, in its order, without the descriptors that are none.
        references: References,
        /// One message in stream framing, as it passes the wire.
        frame: Bytes,
    },
    /// A frame came in on a connection.
    Receive {
        /// The connection's number, the same in the logs of both ends.
        connection: u32,
        /// The call that a Bootstrap or a Call is; 0 where none is noted.
        call: u64,
        /// The new references for what came in by the capability table, in its order, without the descriptors that are
        /// none.
        references: References,
        /// One message in stream framing, as it passed the wire.
        frame: Bytes,
    },
    /// The results of a call are those of another, to which its vat handed it on.
    AnswerBy {
        /// The call, which isn't 0.
        call: u64,
        /// The call whose results are its results, which isn't 0.
        by: u64,
    },
}

impl Drop for Body {
    fn drop(self) {
        match self {
            Self::Host {
                reference: _,
                object: _,
            } => {}
            Self::Vow { reference: _ } => {}
            Self::Fulfil {
                reference: _,
                to: _,
            } => {}
            Self::Break { reference: _ } => {}
            Self::Make {
                call: _,
                reference: _,
                interface: _,
                method: _,
            } => {}
            Self::Field {
                reference: _,
                call: _,
                path: _,
            } => {}
            Self::Deliver { call: _, object: _ } => {}
            Self::Answer {
                call: _,
                results: _,
            } => {}
            Self::Fault { call: _ } => {}
            Self::Send {
                connection: _,
                call: _,
                references: _,
                frame: _,
            } => {}
            Self::Receive {
                connection: _,
                call: _,
                references: _,
                frame: _,
            } => {}
            Self::AnswerBy { call: _, by: _ } => {}
        }
    }
}

/// What a MAKE says.
pub(crate) fn make_body(call: u64, reference: u64, interface: u64, method: u16) -> Body
    ensures { result ≡ Body.Make call reference interface method }
{
    Body::Make {
        call,
        reference,
        interface,
        method,
    }
}

/// What a FIELD says.
pub(crate) fn field_body(reference: u64, call: u64, path: Path) -> Body
    ensures { result ≡ Body.Field reference call path }
{
    Body::Field {
        reference,
        call,
        path,
    }
}

impl Body {
    /// A second body that says the same; its frame is shared. The only error is that memory ran out.
    pub(crate) fn copy(&self) -> Result<Body, AllocError>
        ensures { IfOk result (λ copied. copied ≡ self.now) }
    {
        Ok(match self {
            &Body::Host { reference, object } => Body::Host { reference, object },
            &Body::Vow { reference } => Body::Vow { reference },
            &Body::Fulfil { reference, to } => Body::Fulfil { reference, to },
            &Body::Break { reference } => Body::Break { reference },
            &Body::Make {
                call,
                reference,
                interface,
                method,
            } => make_body(call, reference, interface, method),
            Body::Field {
                reference,
                call,
                path,
            } => field_body(*reference, *call, path.copy()?),
            &Body::Deliver { call, object } => Body::Deliver { call, object },
            Body::Answer { call, results } => Body::Answer {
                call: *call,
                results: results.copy()?,
            },
            &Body::Fault { call } => Body::Fault { call },
            Body::Send {
                connection,
                call,
                references,
                frame,
            } => Passage::copied(*connection, *call, references, frame)?.as_send(),
            Body::Receive {
                connection,
                call,
                references,
                frame,
            } => Passage::copied(*connection, *call, references, frame)?.as_receive(),
            &Body::AnswerBy { call, by } => Body::AnswerBy { call, by },
        })
    }
}
