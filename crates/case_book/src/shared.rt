//! Books that threads share.

use crate::book::Book;
use std::sync::Mutex;

/// A book under a lock. While the lock is free, what the type of [`Book`] keeps holds: each finding stands at the place of
/// its own piece, of one case that ties up. Nothing else is known of it, not even which case it is of.
pub type SharedBook = Mutex<Book>;
