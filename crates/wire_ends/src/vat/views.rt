//! What references, numbers and targets stand for at one end, where that turns, and walks along turns.

/// What a reference, a number or a target stands for. Calls, promises and lives of imports are counted from 0.
#[derive(Clone, Copy, PartialEq, Eq)]
pub(crate) enum EndView {
    /// An own object, by its number.
    Object(u64),
    /// An own promise.
    Vow(usize),
    /// What stands at a path of a call's results.
    Field(usize, u32),
    /// An import in one of its lives.
    Import(usize),
}

/// Where a view goes next.
#[derive(Clone, Copy, PartialEq, Eq)]
pub(crate) enum NextView {
    /// It stays what it is.
    Stays,
    /// It turned to another one.
    To(EndView),
    /// It can lead nowhere.
    Stops,
}

/// A view as a key of a table.
#[derive(Clone, Copy, PartialEq, Eq, PartialOrd, Ord)]
pub(crate) struct ViewKey(u8, u64, u32);

impl EndView {
    /// The view's own key.
    pub(crate) fn key(self) -> ViewKey {
        match self {
            EndView::Object(object) => ViewKey(0, object, 0),
            EndView::Vow(vow) => ViewKey(1, vow as u64, 0),
            EndView::Field(call, path) => ViewKey(2, call as u64, path),
            EndView::Import(life) => ViewKey(3, life as u64, 0),
        }
    }

    /// The key of what turns together: all fields of a call do.
    pub(crate) fn turning_key(self) -> ViewKey {
        match self {
            EndView::Field(call, _) => ViewKey(2, call as u64, 0),
            _ => self.key(),
        }
    }
}

/// How many turns a walk takes at most.
pub(crate) const MAX_TURNS: u64 = 1 << 24;

/// A walk along turns, which finds out where it goes in a circle.
#[derive(Drop)]
pub(crate) struct ViewWalk {
    /// Where it is.
    pub view: EndView,
    mark: EndView,
    steps: u64,
    limit: u64,
}

impl ViewWalk {
    /// A walk that begins here.
    pub(crate) fn new(view: EndView) -> ViewWalk {
        ViewWalk {
            view,
            mark: view,
            steps: 0,
            limit: 1,
        }
    }

    /// Whether a turn leads on, and not to where the walk has been; it is taken then. A circle is found out before the walk
    /// goes round three times.
    pub(crate) fn goes_on(&mut self, turn: NextView) -> bool {
        let NextView::To(next) = turn else {
            return false;
        };
        if next == self.mark {
            return false;
        }
        self.view = next;
        self.steps = self.steps.wrapping_add(1);
        if self.steps == self.limit {
            self.mark = next;
            self.steps = 0;
            self.limit = self.limit.wrapping_mul(2);
        }
        true
    }
}
