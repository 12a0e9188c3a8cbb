//! Which vat's record comes next.

ghost use Rattle.std.specs.Prelude.{◌≡◌, ◌+◌, ◌<◌, ◌^◌, ℕ, false, true, map, IfOk, OnOk, MatchOption};
ghost use Rattle.std.specs.Arc.{arc_value};

use crate::order_progress::Progress;
use crate::ready_vats::ReadyVats;
use crate::waiting_vats::WaitingVats;
use std::alloc::{AllocError, Global};
use std::marker::Model;
use std::sync::Arc;
use vat_log::VatLog;

/// Several logs, each with how many of its records came already, and the smallest vat number whose next record may come. Each
/// vat whose next record may come is ready. A vat whose next record is a RECV that may not come yet is ready too until it is
/// tried; then it waits on its connection until another vat sends there.
#[derive(Drop)]
pub struct Schedule {
    progress: Progress,
    ready: ReadyVats,
    waiting: WaitingVats,
    first: Option<u32>,
}

impl Model for Schedule {
    ghost use Rattle.std.specs.Prelude.{List};
    ghost use Rattle.merge_order.specs.Fits.{Part};
    ghost use Rattle.merge_order.specs.Waits.{IsScheduled};

    ghost Value = { List Part };

    ghost view = { λ schedule. schedule.progress };

    ghost invariant = { λ schedule.
        IsScheduled schedule.progress schedule.ready schedule.waiting schedule.first };
}

impl Schedule {
    ghost use Rattle.merge_order.specs.Fits.{IsRising, begin, may_come, after, used_up};
    ghost use Rattle.merge_order.specs.Glue.{came_by_all};
    ghost use Rattle.merge_order.specs.Waits.{is_ready, ready_count, IsQueued, IsPutOff, IsWoken, IsScheduled};

    /// Before the first step.
    pub fn new(alloc: Global, logs: &[Arc<VatLog>]) -> Result<Schedule, AllocError>
        requires { IsRising (map arc_value logs.now) }
        ensures { IfOk result (λ schedule. schedule ≡ begin (map arc_value logs.now)) }
    {
        let progress = Progress::new(alloc, logs)?;
        let mut ready = progress.vats(alloc)?;
        let mut waiting = WaitingVats::new(alloc);
        let first = Schedule::settle(&progress, &mut ready, &mut waiting)?;
        Ok(Schedule {
            progress,
            ready,
            waiting,
            first,
        })
    }

    /// This vat waits now, where its next record is a RECV.
    fn put_off(progress: &Progress, vat: u32, waiting: &mut WaitingVats) -> Result<(), AllocError>
        ensures { OnOk result (IsPutOff progress.now vat waiting.old waiting.new) }
    {
        let Some(connection) = progress.awaited(vat) else {
            return Ok(());
        };
        waiting.add(connection, vat)?;
        Ok(())
    }

    /// The vats that wait on the connection on which a frame was sent, if one was, are ready.
    fn wake(
        sent: Option<u32>,
        ready: &mut ReadyVats,
        waiting: &mut WaitingVats,
    ) -> Result<(), AllocError>
        ensures { OnOk result (IsWoken sent ready.old ready.new waiting.old waiting.new) }
    {
        let Some(connection) = sent else {
            return Ok(());
        };
        waiting.wake(connection, ready)?;
        Ok(())
    }

    /// This vat, which was ready, may not come yet and waits.
    fn let_wait(
        progress: &Progress,
        vat: u32,
        ready: &mut ReadyVats,
        waiting: &mut WaitingVats,
    ) -> Result<(), AllocError>
        requires queued { IsQueued progress.now ready.old waiting.old }
        requires ready { is_ready ready.old vat ≡ true }
        requires not_yet { may_come progress.now vat ≡ false }
        ensures queued { OnOk result (IsQueued progress.now ready.new waiting.new) }
        ensures fewer { OnOk result (ready_count ready.new < ready_count ready.old) }
    {
        Schedule::put_off(progress, vat, waiting)?;
        ready.remove(vat);
        Ok(())
    }

    /// Lets each ready vat that may not come yet wait, up to the first that may come, which it answers.
    fn settle(
        progress: &Progress,
        ready: &mut ReadyVats,
        waiting: &mut WaitingVats,
    ) -> Result<Option<u32>, AllocError>
        requires { IsQueued progress.now ready.old waiting.old }
        ensures { IfOk result (IsScheduled progress.now ready.new waiting.new) }
    {
        while let Some(vat) = ready.least() {
            if progress.may_come(vat) {
                return Ok(Some(vat));
            }
            Schedule::let_wait(progress, vat, ready, waiting)?;
        }
        Ok(None)
    }

    /// The first vat that may come. Mostly it is the smallest one that is ready; else those that are ready are tried.
    fn first_to_come(
        progress: &Progress,
        ready: &mut ReadyVats,
        waiting: &mut WaitingVats,
    ) -> Result<Option<u32>, AllocError>
        requires { IsQueued progress.now ready.old waiting.old }
        ensures { IfOk result (IsScheduled progress.now ready.new waiting.new) }
    {
        let Some(vat) = ready.least() else {
            return Ok(None);
        };
        if progress.may_come(vat) {
            return Ok(Some(vat));
        }
        Schedule::let_wait(progress, vat, ready, waiting)?;
        Schedule::settle(progress, ready, waiting)
    }

    /// A step of this vat, which may come, and the vat whose next record may come then.
    fn step(
        progress: &mut Progress,
        vat: u32,
        ready: &mut ReadyVats,
        waiting: &mut WaitingVats,
    ) -> Result<Option<u32>, AllocError>
        requires may { may_come progress.old vat ≡ true }
        // No count is full.
        requires few { came_by_all progress.old + 1 < 2 ^ 64 }
        requires queued { IsQueued progress.old ready.old waiting.old }
        ensures later { OnOk result (progress.new ≡ after vat progress.old) }
        ensures count { OnOk result (came_by_all progress.new ≡ came_by_all progress.old + 1) }
        ensures scheduled { IfOk result (IsScheduled progress.new ready.new waiting.new) }
    {
        let sent = progress.take(vat)?;
        Schedule::wake(sent, ready, waiting)?;
        Schedule::first_to_come(progress, ready, waiting)
    }

    /// The smallest vat number whose next record may come.
    pub fn least(&self) -> Option<u32>
        ensures { MatchOption result ((vat : ℕ) → may_come self.now vat ≡ false)
            (λ least. (may_come self.now least ≡ true)
            × ((vat : ℕ) → vat < least → may_come self.now vat ≡ false)) }
    {
        self.first
    }

    /// Takes the next record of this vat, which may come. Where memory is refused, nothing is left of the schedule.
    pub fn take(&mut self, vat: u32) -> Result<(), AllocError>
        requires may { may_come self.old vat ≡ true }
        // No count is full.
        requires few { came_by_all self.old + 1 < 2 ^ 64 }
        ensures later { OnOk result (self.new ≡ after vat self.old) }
        ensures count { OnOk result (came_by_all self.new ≡ came_by_all self.old + 1) }
    {
        match Schedule::step(&mut self.progress, vat, &mut self.ready, &mut self.waiting) {
            Ok(first) => {
                self.first = first;
                Ok(())
            }
            Err(error) => {
                self.progress.clear();
                self.first = None;
                Err(error)
            }
        }
    }

    /// Whether all records came.
    pub fn is_used_up(&self) -> bool
        ensures { result ≡ used_up self.now }
    {
        self.progress.is_used_up()
    }
}
