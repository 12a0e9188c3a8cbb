//! Messages in a short form.

/// What a message is meant for. A path is a number of [`Paths`](crate::Paths).
#[derive(Clone, Copy, PartialEq, Eq, PartialOrd, Ord)]
pub enum Aim {
    /// A number of the receiver's exports.
    Import(u32),
    /// A result of a question that the sender opened.
    Answer(u32, u32),
}

/// An entry of a capability table.
#[derive(Clone, Copy, PartialEq, Eq)]
pub enum Entry {
    /// No capability.
    NoCap,
    /// A number of the sender's exports.
    Hosted(u32),
    /// A number of the sender's exports, a promise, and the group of introductions to which this one belongs.
    Promised(u32, usize),
    /// What is the receiver's: receiverHosted, or receiverAnswer.
    Receivers(Aim),
}

impl Entry {
    /// The number of the sender's exports that it introduces.
    pub fn introduced(self) -> Option<u32> {
        match self {
            Entry::Hosted(number) | Entry::Promised(number, _) => Some(number),
            Entry::NoCap | Entry::Receivers(_) => None,
        }
    }
}

/// What a Return says of its call.
#[derive(Clone, Copy, PartialEq, Eq)]
pub enum ReturnKind {
    /// Here they are.
    There,
    /// There are none: an exception.
    Exception,
    /// There are none: the call was canceled.
    Canceled,
    /// They stay with the answerer.
    Elsewhere,
    /// They are those of this other question of the Return's sender.
    TakenFrom(u32),
}

impl ReturnKind {
    /// Whether there are no results.
    pub fn are_none(self) -> bool {
        matches!(self, ReturnKind::Exception | ReturnKind::Canceled)
    }
}

/// What a Call says.
#[derive(Clone, Copy, PartialEq, Eq)]
pub struct PlannedCall {
    /// Its question.
    pub question: u32,
    /// What it is meant for.
    pub aim: Aim,
    /// A digest of its interface, its method and its content.
    pub digest: u64,
    /// The interface.
    pub interface: u64,
    /// The method.
    pub method: u16,
    /// Whether its results stay with the answerer.
    pub yourself: bool,
}

/// What a Return says.
#[derive(Clone, Copy, PartialEq, Eq)]
pub struct PlannedReturn {
    /// The question that is answered.
    pub answer: u32,
    /// Whether the capabilities of the call's parameters are given back.
    pub release: bool,
    /// What it says of the results.
    pub results: ReturnKind,
    /// Whether no Finish is needed.
    pub light: bool,
}

/// What a frame says, without its capability table and the places of capabilities in the content.
#[derive(Clone, Copy, PartialEq, Eq)]
pub enum Kind {
    /// Bootstrap, with its question.
    Bootstrap(u32),
    /// Call.
    Call(PlannedCall),
    /// Return.
    Return(PlannedReturn),
    /// Finish, with its question, and whether the capabilities of the results are given back.
    Finish(u32, bool),
    /// Resolve, with the promise and its group, if a group of it is without a Resolve. Its table has the capability, if
    /// it brings one.
    Resolve(u32, Option<usize>),
    /// Release, with the number and how often it is given back.
    Release(u32, u32),
    /// A senderLoopback.
    Loopback(u32, Aim),
    /// A receiverLoopback.
    Echo(u32, Aim),
    /// Abort.
    Abort,
    /// The frame isn't read as a message of this profile.
    Unread,
}

/// A place in the content that has a capability: its path, and its index into the table.
#[derive(Clone, Copy, PartialEq, Eq)]
pub struct Named {
    /// The path.
    pub path: u32,
    /// The index into the table, counted from 0.
    pub index: u32,
}

/// A frame's message in the short form.
#[derive(Drop)]
pub struct Planned {
    /// What it says.
    pub kind: Kind,
    /// Its capability table; of a Resolve the capability alone.
    pub table: Vec<Entry>,
    /// Where the content of its parameters or results has capabilities.
    pub fields: Vec<Named>,
}

impl Planned {
    /// The entry of the table at this index.
    pub fn entry(&self, index: u32) -> Option<Entry> {
        self.table.get(index as usize).copied()
    }

    /// The entry that the content has at this path.
    pub fn entry_at(&self, path: u32) -> Option<Entry> {
        let field = self.fields.iter().find(|field| field.path == path)?;
        self.entry(field.index)
    }

    /// The question that the message opens.
    pub fn opens(&self) -> Option<u32> {
        match self.kind {
            Kind::Bootstrap(question) => Some(question),
            Kind::Call(call) => Some(call.question),
            _ => None,
        }
    }

    /// What the message is meant for.
    pub fn aim(&self) -> Option<Aim> {
        match self.kind {
            Kind::Call(call) => Some(call.aim),
            Kind::Loopback(_, aim) | Kind::Echo(_, aim) => Some(aim),
            _ => None,
        }
    }

    /// What the message says of results, if it is a Return.
    pub fn results(&self) -> Option<ReturnKind> {
        match self.kind {
            Kind::Return(said) => Some(said.results),
            _ => None,
        }
    }
}
