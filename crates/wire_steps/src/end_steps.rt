//! What one end does, step by step.

use cap_frame::Path;
use std::alloc::{AllocError, Global};
use vat_log::{Body, References, ResultReferences};

/// What one end does.
#[derive(Drop)]
pub enum EndStep {
    /// What a record says that is no frame.
    Note(Body),
    /// The next frame of the own file goes out: the call that is noted beside it, and the references.
    Send(u64, References),
    /// The next frame of the other file comes in: the call that is noted beside it, and the references.
    Receive(u64, References),
}

/// What one end does, step by step.
#[derive(Drop)]
pub struct Steps {
    steps: Vec<EndStep>,
    is_muted: bool,
}

impl Steps {
    /// No steps.
    pub fn new(alloc: Global) -> Steps {
        Steps {
            steps: Vec::new(alloc),
            is_muted: false,
        }
    }

    /// From now on no step is kept.
    pub fn mute(&mut self) {
        self.is_muted = true;
    }

    /// The steps, in their order.
    pub fn into_steps(self) -> Vec<EndStep> {
        let Steps { steps, is_muted: _ } = self;
        steps
    }

    /// Puts a step behind the others.
    fn push(&mut self, step: EndStep) -> Result<(), AllocError> {
        if !self.is_muted {
            self.steps.push(step)?;
        }
        Ok(())
    }

    /// HOST.
    pub fn host(&mut self, reference: u64, object: u64) -> Result<(), AllocError> {
        self.push(EndStep::Note(Body::Host { reference, object }))
    }

    /// VOW.
    pub fn vow(&mut self, reference: u64) -> Result<(), AllocError> {
        self.push(EndStep::Note(Body::Vow { reference }))
    }

    /// FULFIL.
    pub fn fulfil(&mut self, reference: u64, to: u64) -> Result<(), AllocError> {
        self.push(EndStep::Note(Body::Fulfil { reference, to }))
    }

    /// BREAK.
    pub fn break_vow(&mut self, reference: u64) -> Result<(), AllocError> {
        self.push(EndStep::Note(Body::Break { reference }))
    }

    /// MAKE.
    pub fn make(
        &mut self,
        call: u64,
        reference: u64,
        interface: u64,
        method: u16,
    ) -> Result<(), AllocError> {
        self.push(EndStep::Note(Body::Make {
            call,
            reference,
            interface,
            method,
        }))
    }

    /// FIELD.
    pub fn field(&mut self, reference: u64, call: u64, path: Path) -> Result<(), AllocError> {
        self.push(EndStep::Note(Body::Field {
            reference,
            call,
            path,
        }))
    }

    /// DELIVER.
    pub fn deliver(&mut self, call: u64, object: u64) -> Result<(), AllocError> {
        self.push(EndStep::Note(Body::Deliver { call, object }))
    }

    /// ANSWER.
    pub fn answer(&mut self, call: u64, results: Vec<(u64, Path)>) -> Result<(), AllocError> {
        self.push(EndStep::Note(Body::Answer {
            call,
            results: ResultReferences::new(results),
        }))
    }

    /// ANSWERBY.
    pub fn answer_by(&mut self, call: u64, by: u64) -> Result<(), AllocError> {
        self.push(EndStep::Note(Body::AnswerBy { call, by }))
    }

    /// FAULT.
    pub fn fail(&mut self, call: u64) -> Result<(), AllocError> {
        self.push(EndStep::Note(Body::Fault { call }))
    }

    /// SEND: the next frame of the own file.
    pub fn send(&mut self, call: u64, references: Vec<u64>) -> Result<(), AllocError> {
        self.push(EndStep::Send(call, References::new(references)))
    }

    /// RECV: the next frame of the other file.
    pub fn receive(&mut self, call: u64, references: Vec<u64>) -> Result<(), AllocError> {
        self.push(EndStep::Receive(call, References::new(references)))
    }
}
