//! The plans of both files.

use crate::frame_ties::Ties;
use crate::groups::Groups;
use crate::keyed_lists::KeyedLists;
use crate::led_back::{Passing, led_back};
use crate::message::{Aim, Kind, Planned};
use crate::paths::Paths;
use crate::reading::read_planned;
use bytes::Bytes;
use rising_table::RisingTable;
use std::alloc::{AllocError, Global};
use wire_cut::End;

/// What one end's file tells.
pub struct FilePlan {
    /// Its messages.
    pub messages: Vec<Planned>,
    /// Its promises.
    pub groups: Groups,
    /// Which frames belong together, and which paths it names.
    pub ties: Ties,
    /// The other end's Calls that it leads back.
    passing: Passing,
}

impl Drop for FilePlan {
    fn drop(self) {
        let Self {
            messages: _,
            groups: _,
            ties: _,
            passing: _,
        } = self;
    }
}

/// What both files tell.
pub struct WirePlan {
    of_a: FilePlan,
    of_b: FilePlan,
    /// The paths that are named in them.
    pub paths: Paths,
}

impl Drop for WirePlan {
    fn drop(self) {
        let Self {
            of_a: _,
            of_b: _,
            paths: _,
        } = self;
    }
}

impl FilePlan {
    /// The first of the other end's Calls from this place on that the own Call with this digest and target passes on, as
    /// it seems.
    pub fn call_to_pass(&self, digest: u64, target: Aim, from: usize) -> Option<usize> {
        let places = self.passing.of((digest, target));
        let before = places.partition_point(|place| *place < from);
        places.get(before).copied()
    }
}

/// The messages of frames, whose promises go into groups.
fn read_file(
    alloc: Global,
    frames: &[Bytes],
    paths: &mut Paths,
    groups: &mut Groups,
) -> Result<Vec<Planned>, AllocError> {
    let mut messages = Vec::with_capacity(alloc, frames.len())?;
    for frame in frames {
        let place = messages.len();
        messages.push(read_planned(alloc, frame, place, paths, groups)?)?;
    }
    Ok(messages)
}

/// The plan of one file, without what its frames have to do with the other one's.
fn plan_file(alloc: Global, frames: &[Bytes], paths: &mut Paths) -> Result<FilePlan, AllocError> {
    let mut groups = Groups::new(alloc);
    let messages = read_file(alloc, frames, paths, &mut groups)?;
    let ties = Ties::of(alloc, &messages)?;
    Ok(FilePlan {
        messages,
        groups,
        ties,
        passing: KeyedLists::new(alloc),
    })
}

/// Ties the Returns of one end to the questions of the other: the k-th Return for a number answers its k-th opening.
fn pair(alloc: Global, asker: &mut FilePlan, answerer: &mut FilePlan) -> Result<(), AllocError> {
    let mut answered = RisingTable::new(alloc);
    for (place, message) in answerer.messages.iter().enumerate() {
        let Kind::Return(said) = message.kind else {
            continue;
        };
        let key = u64::from(said.answer);
        let before: usize = answered.get(key).copied().unwrap_or(0);
        if let Some(opening) = asker.ties.openings(said.answer).get(before).copied() {
            answered.put(key, before.saturating_add(1))?;
            asker.ties.pair(opening, place);
            answerer.ties.pair(place, opening);
        }
    }
    Ok(())
}

impl WirePlan {
    /// The plan of an end's file.
    pub fn file(&self, end: End) -> &FilePlan {
        match end {
            End::A => &self.of_a,
            End::B => &self.of_b,
        }
    }

    /// Finds out what the frames of either file have to do with the other one's.
    fn join(&mut self, alloc: Global) -> Result<(), AllocError> {
        pair(alloc, &mut self.of_a, &mut self.of_b)?;
        pair(alloc, &mut self.of_b, &mut self.of_a)?;
        self.of_a.passing = led_back(alloc, &self.of_a, &self.of_b)?;
        self.of_b.passing = led_back(alloc, &self.of_b, &self.of_a)?;
        Ok(())
    }
}

/// The plans of both files by themselves.
fn plan_files(alloc: Global, a: &[Bytes], b: &[Bytes]) -> Result<WirePlan, AllocError> {
    let mut paths = Paths::new(alloc)?;
    let of_a = plan_file(alloc, a, &mut paths)?;
    let of_b = plan_file(alloc, b, &mut paths)?;
    Ok(WirePlan { of_a, of_b, paths })
}

/// The plans of the frames that the two ends sent. The only error is that memory ran out.
pub fn plan_wire(alloc: Global, a: &[Bytes], b: &[Bytes]) -> Result<WirePlan, AllocError> {
    let mut plan = plan_files(alloc, a, b)?;
    match plan.join(alloc) {
        Ok(()) => Ok(plan),
        Err(failed) => Err(failed),
    }
}
