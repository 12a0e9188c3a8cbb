//! The table of schema.capnp's layouts: where each field of its structs stands, under the names of its struct and field.
//! Numbers are named by the byte of the data section at which they begin, pointers by their number, each counted from 0.

/// `CodeGeneratorRequest.nodes`.
pub const REQUEST_NODES: u16 = 0;

/// `Node.id`.
pub const NODE_ID: u32 = 0;

/// `Node.displayName`.
pub const NODE_DISPLAY_NAME: u16 = 0;

/// `Node.displayNamePrefixLength`.
pub const NODE_PREFIX_LENGTH: u32 = 8;

/// `Node`'s union.
pub const NODE_TAG: u32 = 12;

/// `Node.interface.methods`.
pub const INTERFACE_METHODS: u16 = 3;

/// `Method.name`.
pub const METHOD_NAME: u16 = 0;
