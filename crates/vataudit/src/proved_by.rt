//! What `--version` prints.

use command_line::VERSION;
use std::fmt;
use std::fmt::{Display, Formatter};

/// The kit by which this program was proved. The sources name none, since a build by `rt try` of the same sources has no
/// proof. `packaging/proved` names it in a copy of them, which it proves and builds.
const PROVED_BY: Option<&str> = None;

/// What `--version` prints: the version of the program, and the kit by which it was proved, or that none is known.
#[derive(Clone, Copy)]
pub(crate) struct ProgramVersion;

impl Display for ProgramVersion {
    fn fmt<W: fmt::Write>(&self, f: &mut Formatter<W>) -> fmt::Result {
        match PROVED_BY {
            Some(kit) => write!(f, "vataudit {VERSION}, proved with {kit}"),
            None => write!(f, "vataudit {VERSION}, not known to be proved"),
        }
    }
}
