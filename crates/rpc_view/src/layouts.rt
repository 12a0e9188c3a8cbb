//! The table of rpc.capnp's layouts: where each field of its structs stands, under the names of its struct and field,
//! with what it is by default and why. Numbers are named by the byte of the data section at which they begin, a Bool by
//! its bit, pointers by their number, each counted from 0. Where nothing else is said, rpc.capnp declares no default: a
//! number is 0, a union its first member, a pointer null.

/// `Message`'s union, by default `unimplemented`.
pub const MESSAGE_TAG: u32 = 0;

/// The body, whichever member of `Message`'s union it is.
pub const MESSAGE_BODY: u16 = 0;

/// `Bootstrap.questionId`.
pub const BOOTSTRAP_QUESTION: u32 = 0;

/// `Call.questionId`.
pub const CALL_QUESTION: u32 = 0;

/// `Call.methodId`.
pub const CALL_METHOD: u32 = 4;

/// `Call.sendResultsTo`'s union, by default `caller`, which is the usual.
pub const CALL_SEND_RESULTS_TO: u32 = 6;

/// `Call.interfaceId`.
pub const CALL_INTERFACE: u32 = 8;

/// `Call.onlyPromisePipeline`, of the later edition; by default not set, as the first one sends it.
pub const CALL_ONLY_PROMISE_PIPELINE: u32 = 130;

/// `Call.target`.
pub const CALL_TARGET: u16 = 0;

/// `Call.params`, by default a payload without a capability.
pub const CALL_PARAMS: u16 = 1;

/// `Return.answerId`.
pub const RETURN_ANSWER: u32 = 0;

/// `Return.releaseParamCaps`, by default true: who forgets to set it only keeps capabilities too long, and who forgets
/// to clear it is told by errors soon.
pub const RETURN_RELEASE_PARAM_CAPS: u32 = 32;

/// `Return.noFinishNeeded`, of the later edition; by default not set, as the first one sends it.
pub const RETURN_NO_FINISH_NEEDED: u32 = 33;

/// `Return`'s union, by default `results`.
pub const RETURN_TAG: u32 = 6;

/// `Return.takeFromOtherQuestion`.
pub const RETURN_TAKE_FROM_OTHER_QUESTION: u32 = 8;

/// `Return.results`, by default a payload without a capability.
pub const RETURN_RESULTS: u16 = 0;

/// `Finish.questionId`.
pub const FINISH_QUESTION: u32 = 0;

/// `Finish.releaseResultCaps`, by default true, for the same reason as `Return.releaseParamCaps`.
pub const FINISH_RELEASE_RESULT_CAPS: u32 = 32;

/// `Resolve.promiseId`.
pub const RESOLVE_PROMISE: u32 = 0;

/// `Resolve`'s union, by default `cap`.
pub const RESOLVE_TAG: u32 = 4;

/// `Resolve.cap`, by default no capability.
pub const RESOLVE_CAP: u16 = 0;

/// `Release.id`.
pub const RELEASE_ID: u32 = 0;

/// `Release.referenceCount`.
pub const RELEASE_COUNT: u32 = 4;

/// `Disembargo.context.senderLoopback`, and `receiverLoopback`.
pub const DISEMBARGO_NUMBER: u32 = 0;

/// `Disembargo.context`'s union, by default `senderLoopback`.
pub const DISEMBARGO_TAG: u32 = 4;

/// `Disembargo.target`.
pub const DISEMBARGO_TARGET: u16 = 0;

/// `MessageTarget`'s union, by default `importedCap`.
pub const TARGET_TAG: u32 = 4;

/// `MessageTarget.importedCap`.
pub const TARGET_IMPORTED: u32 = 0;

/// `MessageTarget.promisedAnswer`.
pub const TARGET_PROMISED: u16 = 0;

/// `PromisedAnswer.questionId`.
pub const PROMISED_QUESTION: u32 = 0;

/// `PromisedAnswer.transform`, by default empty: the result itself is meant.
pub const PROMISED_TRANSFORM: u16 = 0;

/// `PromisedAnswer.Op`'s union, by default `noop`, which does nothing.
pub const OPERATION_TAG: u32 = 0;

/// `PromisedAnswer.Op.getPointerField`.
pub const OPERATION_FIELD: u32 = 2;

/// `Payload.content`, by default null, in which there is no capability.
pub const PAYLOAD_CONTENT: u16 = 0;

/// `Payload.capTable`, by default empty.
pub const PAYLOAD_CAP_TABLE: u16 = 1;

/// `CapDescriptor`'s union, by default `none`: no capability.
pub const DESCRIPTOR_TAG: u32 = 0;

/// `CapDescriptor.senderHosted`, `senderPromise` and `receiverHosted`.
pub const DESCRIPTOR_NUMBER: u32 = 4;

/// `CapDescriptor.receiverAnswer`.
pub const DESCRIPTOR_ANSWER: u16 = 0;
